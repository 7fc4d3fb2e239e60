//! The law of the kept table: a run over a table that some sources gave writes what a run from scratch writes. And that
//! groups of modules which are decided in waves are decided as they are one after another.
#![tactic(auto)]

mod laws;

pub use laws::{
    entries_use_called, kept_is_from_scratch, one_analysis, one_table, reports_are_found,
    results_are_of_whole, stands_rests, table_is_of_sources, waves_are_groups,
};
