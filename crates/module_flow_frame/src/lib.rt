//! What the findings of a module rest on: of all that is known of functions, only on what is known of the module's own
//! and of those that it calls by literal names. And what they are tied to: places of the module's text, with their lines.
#![tactic(auto)]

mod laws;

pub use laws::{findings_are_tied, findings_rest_on_calls};
