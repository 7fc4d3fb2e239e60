//! What is listed of the applications of values: for each the functions that it may enter, or anything, and the text of that. The
//! definition of the list is in `specs/Answers.antt`.
#![tactic(auto)]

mod laws;
mod listed;
mod printing;
mod target;

pub use laws::{nothing_is_left_out, one_list, positions_are_within, worked_list};
pub use listed::ascending;
pub use printing::call_lines;
pub use target::{AppliedCall, ListedTargets, Target};
