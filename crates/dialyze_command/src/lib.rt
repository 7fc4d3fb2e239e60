//! What the program does: from the words of a command to lines on an output, over any shelf, sink and gate.
#![tactic(auto)]

mod answer;
mod begin;
mod check;
mod laws;
mod making;
mod plan;
mod running;
mod status;
mod store;
mod words;

pub use check::dialyze;
pub use laws::{one_outcome, some_answer, some_outcome};
pub use running::run_over;
pub use status::Status;
