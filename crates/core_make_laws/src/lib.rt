//! Why each generated text is an accepted module. The words of the statement are in `specs/`; here is the law.
#![tactic(auto)]

mod laws;

pub use laws::generated_is_accepted;
