//! What the crates of types say together: facts for all types that are proved from the clauses of
//! those crates alone.
#![tactic(auto)]

mod facts;
mod narrowing;

pub use facts::{are_equal, inclusion_is_transitive, join_is_above, meet_is_below};
pub use narrowing::{cons_of_its_parts, narrowed, narrowed_list, narrowing_is_monotone, read_back};
