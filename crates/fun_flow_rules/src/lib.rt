//! The rules that the text of a program makes, for the sets of functions that its values may hold.
#![tactic(auto)]

mod applications;
mod control;
mod expressions;
mod patterns;
mod program;
mod walk;

pub use program::program_rules;
