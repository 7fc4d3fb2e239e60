//! Why nothing that is found in modules that are analysed together is false of their runs.
#![tactic(auto)]

mod laws;

pub use laws::findings_hold;
