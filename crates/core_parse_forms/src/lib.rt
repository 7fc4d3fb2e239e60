//! The readers of expressions and patterns, which call one another: from tokens to the node that they spell first, or
//! to the first fault.
#![tactic(auto)]

mod binaries;
mod chains;
mod clauses;
mod control_forms;
pub mod definitions;
mod expression_lists;
mod expressions;
mod forms;
mod macros;
mod maps;
mod pattern_binaries;
mod pattern_brackets;
mod pattern_lists;
mod pattern_maps;
mod patterns;

pub use chains::Frame;
pub use macros::Read;
