//! The flow of types through a module: with what each function is entered and what it gives, and what can't
//! work.
#![tactic(auto)]

mod flowing;
mod laws;
mod readers;
mod rounds;
mod visits;

pub use flowing::{FlowOut, flow};
pub use laws::last_state_laws;
