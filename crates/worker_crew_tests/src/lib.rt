//! The board, the crew and `assemble` together, on a work that is made of chains.
#![tactic(auto)]

mod chains;
mod gates;
#[cfg(test)]
mod outside;
#[cfg(test)]
mod tests;

pub use chains::Chains;
pub use gates::{CountingGate, MeetingGate, WatchingGate};
