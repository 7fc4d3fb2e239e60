//! Values of the code, and whether one is in a type.
#![tactic(auto)]

mod membership;
mod value;

pub use membership::value_in;
pub use value::Value;
