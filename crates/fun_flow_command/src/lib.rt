//! What the program `fun_flow` does: from the names of files to a line for each application of a value, over any shelf, sink and gate.
#![tactic(auto)]

mod listing;
mod program;
mod running;

pub use listing::fun_flow;
pub use running::run_over;
