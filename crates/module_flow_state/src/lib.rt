//! The state of a module's flow, and the state of a walk through it with its small steps.
#![tactic(auto)]

mod changes;
mod states;
mod walk;

pub use changes::{Changes, FlowChanges};
pub use states::{Contribution, FlowFun, FlowStates, JOINED_ROUNDS};
pub use walk::{FlowWalk, Narrowed, ScopePosition, WalkContext, add_first};
