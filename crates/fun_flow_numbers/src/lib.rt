//! The sets of a program's rules: places and items are numbered as they are met, and the least sets are
//! solved over the numbers.
#![tactic(auto)]

mod laws;
mod numbered;
mod numbering;
mod sets;

pub use laws::names_and_positions;
pub use sets::{FunctionSets, function_sets};
