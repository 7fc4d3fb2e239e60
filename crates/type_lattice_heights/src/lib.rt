//! The height of each type: how often one can go down from it, to a smaller type at each step.
#![tactic(auto)]

mod laws;

pub use laws::a_height;
