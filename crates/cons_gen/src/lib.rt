//! From the text of functions to constraints on types: what each form of expression says of the
//! values of its parts.
#![tactic(auto)]

mod control;
mod expressions;
mod forms;
mod heads;
mod making;

pub use heads::{ClauseHead, InScope, head};
pub use making::{Made, Scope, clause, generate};
