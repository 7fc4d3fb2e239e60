//! The signatures of functions that call one another: by rounds, from none upward.
#![tactic(auto)]

mod calls;
mod component;
mod constraints;
mod entering;
mod equality;
mod inference;
mod laws;
mod members;
mod part_numbers;
mod parts;
mod rounds;
mod signatures;
mod work;

pub use component::solve_component;
pub use entering::enter_summaries;
pub use laws::rounds_laws;
pub use members::Member;
pub use parts::{CompOut, CompPart, Listed};
pub use rounds::component_summaries;
pub use work::{CompWork, discard_part};
