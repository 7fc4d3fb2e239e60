//! What the program `dia_session` does: it carries out a script whose lines edit what is held and ask for reports, over any shelf, sink
//! and gate. Each answer is the one that an analysis from scratch gives.
#![tactic(auto)]

mod carrying;
mod lines;
mod running;
mod script;
mod session;
mod words;

pub use running::run_over;
pub use session::dia_session;
