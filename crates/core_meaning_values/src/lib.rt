//! Values of runs, by the functions that they hold: what is covered, in `specs/`, with the lemmas that
//! matching, binding and making of values keep it, which are laws for the crates above; and which functions
//! the built-in functions hand on.
#![tactic(auto)]

mod laws;

pub use laws::handed_on;
