//! The grammar of Core Erlang: from tokens to the module that they spell, or to the first fault.
#![tactic(auto)]

mod laws;
mod modules;

pub use core_parse_grammar::fault::ParseFault;
pub use laws::{lexed_weight, module_is_no_fault, refused_once};
pub use modules::parse;
