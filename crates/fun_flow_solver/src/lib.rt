//! The least sets of numbered places under rules, by a worklist: each pair of a place and an item is done
//! once, along the edges of its place and at the applications of which the place is the operator.
#![tactic(auto)]

mod problem;
mod solving;
mod work;

pub use problem::{Application, Edge, Gives, Known, Pair, Problem, entered};
pub use solving::solve;
