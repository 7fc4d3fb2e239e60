//! The canonical text of a module: the one text that other tools and tests can rest on.
//!
//! `specs/Canonical.antt` gives its words, and `specs/Words.antt` says how they are spelled.
#![tactic(auto)]

mod expressions;
mod laws;
mod leaves;
mod lists;
mod modules;
mod notes;
mod patterns;

pub use laws::{
    canonical_text_has_one_reading, fitting_module_is_read_back, line_lexed,
    spelled_module_is_read_back,
};
pub use modules::print;
