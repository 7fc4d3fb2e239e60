//! The types of Core Erlang values, level by level: what they are made of, which values they have,
//! their normal form, and their meet, join and cut, with the laws of all of them. There is no code
//! here: `type_lattice_trees` has most of it and `type_lattice` the types that callers name, and both are
//! proved against these definitions.
#![tactic(auto)]

mod laws;
mod limits;

pub use laws::{cut_laws, element_laws, list_laws, rank_laws, tuple_laws, type_laws, value_laws};
pub use limits::{MAX_ELEMENTS, MAX_SIZES};
