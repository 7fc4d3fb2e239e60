//! The summaries of all functions of modules that are analysed together, by any number of workers: each component is
//! solved from its part and from the outputs of those that it calls, and the answer is that of one thread.
#![tactic(auto)]

mod crew;
mod entering;
mod fixed;
mod laws;
mod lists;
mod memo;
mod parts;
mod solving;

pub use laws::outputs_are_summaries;
pub use memo::{CompMemo, discard_any, discard_memo, empty_memo};
pub use solving::{solve_modules_parallel, solve_modules_with};
