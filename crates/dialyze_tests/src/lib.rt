//! Tests of the program's one call that are no texts with answers: what workers do at the gate, each text of `make`, and how deep an
//! expression may be.
#![tactic(auto)]

#[cfg(test)]
mod tests;
