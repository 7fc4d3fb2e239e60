//! What a walk through a module asks of its text and of calls: what stands around a node, which functions stand in the
//! module and which of their names stand as values, what calls give, and which functions are unknown.
#![tactic(auto)]

mod calls;
mod functions;
mod names;
mod node_context;
mod types;
mod unknown;

pub use calls::{by_state, called, function_name, may_return};
pub use functions::{Functions, ResolvedName, label_named};
pub use names::{DefinedFunction, NameWalk, names_of_function, names_of_module};
pub use node_context::{NodeContext, step_note};
pub use types::{
    Given, add_any, any_types, are_same, as_many, discard, discard_given, discard_types, either,
    first, joins, list_type, meets, one, value,
};
pub use unknown::unknown_functions;
