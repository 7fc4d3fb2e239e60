//! There is an analysis of modules that are passed, with any table.
#![tactic(auto)]

mod laws;

pub use laws::{a_written_table, an_analysis};
