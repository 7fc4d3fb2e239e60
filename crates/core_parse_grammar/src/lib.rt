//! The grammar of Core Erlang as a table, and what its readers share: tokens, faults, constants and notes, names and
//! variables, and the nodes that are made of what was read.
#![tactic(auto)]

pub mod annotations;
pub mod boxes;
pub mod constants;
pub mod fault;
pub mod leaves;
pub mod literals;
pub mod names;
pub mod nodes;
pub mod notes;
pub mod pairs;
pub mod part_nodes;
pub mod pattern_nodes;
pub mod strings;
pub mod variables;
