//! The built-in functions of the module `erlang`: what they take, what they give, and the part of a
//! constraint that stands for a call of one.
#![tactic(auto)]

mod arg_types;
mod bif;
mod finding;
mod laws;
mod parts;
mod rows;

pub use bif::{ArgKind, Bif, Rule};
pub use finding::lookup;
pub use laws::{builtin_laws, worked_calls};
pub use parts::part;
