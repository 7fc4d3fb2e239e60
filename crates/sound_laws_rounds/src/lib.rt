//! Why the summaries that rounds give are closed, so that every run of the program bears them out.
#![tactic(auto)]

mod laws;

pub use laws::{whole_holds, whole_is_closed};
