//! The meaning of Core Erlang: what an expression of a program may do, and what runs there are. The
//! definitions are in `specs/`; here are their laws.
#![tactic(auto)]

mod laws;

pub use laws::{fuel_laws, label_laws, runs_exist, worked_rows, worked_run};
