//! The lines of typings: what is known of a function, as a text that reads back.
#![tactic(auto)]

mod laws;
mod printing;
mod reading;
mod typing;

pub use laws::typing_lines_once;
pub use printing::append_line_of;
pub use reading::{LineFault, read_line};
pub use typing::{MOST_ARGUMENTS, Typing};
