//! The whole analysis: the functions of all modules are solved component by component, each module is reported on, and what is found
//! stands in a table between runs.
#![tactic(auto)]

mod analysing;
mod certificate;
mod entering;
mod keeping;
mod kept;
mod new_table;
mod reporting;
mod reports;
mod solving;
mod stopping;
mod waves;

pub use analysing::{Analysis, Fault, analyse, analyse_again, analyse_with};
pub use certificate::whole;
pub use kept::{KeptReport, discard_kept};
