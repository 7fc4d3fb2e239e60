//! What is read of a text is decided: what tokens are, by the first that is wrong with them, and the first rule that a module breaks.
#![tactic(auto)]

mod laws;

pub use laws::{a_first_break, every_accepted, one_module_of_tokens, tokens_are_decided};
