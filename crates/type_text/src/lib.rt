//! The text of types: how a type is written, and read back.
#![tactic(auto)]

mod laws;
mod leaves;
mod printing;
mod reading;
mod words;

pub use laws::{front_laws, text_laws};
pub use leaves::{after_word, read_arity, read_quoted};
pub use printing::print;
pub use reading::{TextFault, read, read_front};
