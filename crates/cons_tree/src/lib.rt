//! Constraints on types: what they are made of, what satisfies them, how each part narrows an
//! environment of types, and what is known of the functions that a module calls.
#![tactic(auto)]

mod copies;
mod equality;
mod laws;
mod named;
mod narrowing;
mod parts;
mod signatures;
mod slots;
mod summaries;
mod transfers;

pub use copies::{copy_types, own_types, share_types};
pub use laws::{frame_law, narrowing_laws, type_facts};
pub use narrowing::narrow;
pub use parts::{Callee, Constraint, Env, Part, Sig, Slot, Summary, Transfer};
pub use slots::{Slots, TrailEntry, add_anys, discard_slots};
pub use summaries::Summaries;
