//! The types of the analysis: sets of values, each in its one normal form of level 4.
#![tactic(auto)]

mod elements;
mod equality;
mod kinds;
mod laws;
mod makers;
mod types;

pub use kinds::{Ends, Kind};
pub use laws::{
    canonical_laws, chain_laws, cons_laws, cut_laws, decision_laws, element_laws, list_laws,
    maker_laws, monotone_laws, project_laws, tuple_laws, type_laws,
};
pub use types::Ty;
