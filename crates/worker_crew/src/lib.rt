//! Threads that solve the components of a board together. The board lies under one lock; a worker
//! takes a component under it, solves without it, and finishes under it.
#![tactic(auto)]

mod crew;
mod desk;

pub use crew::run_crew;
