//! The success typings of modules that are analysed together: each function's summary, in the order of the text.
#![tactic(auto)]

mod laws;
mod listing;
mod solving;

pub use laws::small_definitions;
pub use listing::summary_in;
pub use solving::{SummariesFault, summaries};
