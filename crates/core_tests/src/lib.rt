//! Tests of listings that are no texts with answers: how deep the parts of a module may be, and names in another crate than theirs.
#![tactic(auto)]

#[cfg(test)]
mod deep;
#[cfg(test)]
mod kept_names;
#[cfg(test)]
mod names;
