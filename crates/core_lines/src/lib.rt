//! The line of each node of a module: that of the innermost note around it that has one, or else that of its first token.
#![tactic(auto)]

mod expressions;
mod laws;
mod node;
mod patterns;

pub use expressions::node_lines;
pub use laws::as_many_as_labels;
