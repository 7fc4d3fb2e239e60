//! Whether a table is right for sources, by a certificate, whoever made both: the rules are tested by sweeps that share no code with the
//! analysis' solver.
#![tactic(auto)]

mod entries;
mod fault;
mod functions;
mod giving;
mod knowing;
mod least;
mod modules;
mod names;
mod verifying;

pub use fault::{CLOSED, SAME_FUNCTIONS, SAME_MODULES, SAME_SOURCE, VerifyFault};
pub use verifying::verify;
