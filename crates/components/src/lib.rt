//! The strong components of a graph: which nodes reach each other.
#![tactic(auto)]

mod component_lists;
mod graph;
mod laws;
mod node_set;
mod numbering;
mod ordinals;
mod ready;
mod search;
mod targets;

pub use graph::Graph;
pub use laws::{a_numbering, one_numbering};
pub use numbering::{Comps, components};
