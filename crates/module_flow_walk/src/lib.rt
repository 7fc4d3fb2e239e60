//! The walk of a module's functions in a state of its flow: what each expression gives, what it gives to the state, and what
//! is found in it.
#![tactic(auto)]

mod clauses;
mod control;
mod expressions;
mod forms;
mod guards;
mod handing;

pub use control::walk_function;
