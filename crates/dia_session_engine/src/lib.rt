//! What is held by a session: files with the sources that were read from them. Files are put and dropped, and the reports on all that is
//! held are asked for; each answer is the one of an analysis from scratch.
#![tactic(auto)]

mod engine;

pub use engine::{Engine, PutFault, discard_engine};
