//! The greatest solution of a constraint below an environment, on one array of types.
#![tactic(auto)]

mod alternatives;
mod counted;
mod index;
mod laws;
mod plan;
mod queue;
mod solutions;
mod solving;

pub use counted::Steps;
pub use laws::{environment_laws, heights_fall, solution_laws};
pub use solutions::{solve, solve_counted, solve_noted};
pub use solving::solve_slots;
