//! Facts that follow from the clauses of `cons_tree` alone.
#![tactic(auto)]

mod facts;

pub use facts::{narrowed_twice, some_head};
