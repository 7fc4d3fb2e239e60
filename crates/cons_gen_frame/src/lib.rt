//! What the constraints of a text rest on: of all that is known of functions, only on what is known of those that the
//! text calls.
#![tactic(auto)]

mod laws;

pub use laws::constraints_rest_on_calls;
