//! Why what is known of the functions of modules that are analysed together is true of every run.
#![tactic(auto)]

mod laws;

pub use laws::{known_holds, known_is_whole};
