//! What the program `typer` does: from the names of files to each function's success typing as a line, over any shelf, sink and gate.
#![tactic(auto)]

mod answering;
mod listing;
mod running;
mod typing;

pub use running::run_over;
pub use typing::typer;
