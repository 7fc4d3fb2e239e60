//! Why nothing that the analysis says of a program is false of its runs. The words of the statements are
//! in `specs/`; here are the laws.
#![tactic(auto)]

mod gathered;
mod laws;

pub use gathered::{facts, solution_facts};
pub use laws::{constraint_laws, success_typings};
