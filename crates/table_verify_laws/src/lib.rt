//! What a checked table means: the rules by which a table is held against sources and a certificate, and that each summary of a
//! table that keeps them is a success typing, whoever made the table.
#![tactic(auto)]

mod laws;

pub use laws::{
    counting_tells, names_tell, one_certificate, one_first_rule, rules_are_complete,
    rules_are_sound, rules_close,
};
