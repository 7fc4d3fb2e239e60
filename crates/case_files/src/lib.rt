//! Files of cases, which a program plays: texts, and what is to be done with them.
//!
//! A case begins with a line `== NAME` and has steps. A step begins with a line `-- STEP`, of which the first word says what is to be
//! done, and has the lines up to the next step or case. What stands above the first case is for its readers alone.
#![tactic(auto)]

mod named;
mod steps;
mod words;

pub use named::named_texts;
pub use steps::{CaseStep, steps_of};
pub use words::words_of;
