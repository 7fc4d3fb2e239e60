//! Modules of any number, to try the program on: for each number the same real work for everybody.
#![tactic(auto)]

mod modules;

pub use modules::{MOST_MODULES, make};
