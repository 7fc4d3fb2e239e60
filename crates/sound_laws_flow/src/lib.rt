//! Why nothing that the flow of a module finds is false of a run: a function that is found never to give a
//! value gives none, a call or an application that is found never to give one gives none, a clause that is
//! found never to be chosen is not chosen, and a function that is found never to be entered is not entered.
//! The words of the statements are in `specs/`; here are the laws.
#![tactic(auto)]

mod facts;
mod laws;

pub use laws::{no_finding_is_false, nothing_is_false, whole_is_known};
