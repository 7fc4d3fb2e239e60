//! The greatest solution of a constraint by plain sweeps over its members, with no code of the solver.
#![tactic(auto)]

mod joins;
mod kept;
mod sweeps;

pub use sweeps::settle;
