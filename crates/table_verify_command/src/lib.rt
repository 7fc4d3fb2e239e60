//! What the program `table_verify` does: a certificate of files' modules is made, or a table is checked against them by a certificate, over
//! any shelf, sink and gate.
#![tactic(auto)]

mod checking;
mod lines;
mod making;
mod reading;
mod running;
mod verifying;
mod words;

pub use running::run_over;
pub use verifying::table_verify;
