//! The summaries of all functions of modules that are analysed together: component by component, in the order in
//! which they call one another.
#![tactic(auto)]

mod functions;
mod known;
mod laws;
mod solving;

pub use functions::{all_members, discard_members, members_at};
pub use known::close_modules;
pub use laws::one_known;
pub use solving::solve_modules;
