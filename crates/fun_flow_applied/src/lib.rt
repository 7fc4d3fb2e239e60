//! What each application of a value may enter: from modules to the list of their applications.
#![tactic(auto)]

mod applications;
mod calls;
mod entering;
mod module_text;

pub use calls::applied;
