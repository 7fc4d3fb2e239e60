//! The tokens of Core Erlang: from the bytes of a text to its tokens, or to its first fault; and the
//! sorts of tokens, by which the grammar tells them apart.
#![tactic(auto)]

mod classes;
mod escapes;
mod laws;
mod numbers;
mod places;
mod quotes;
mod runs;
mod scanner;
mod shapes;
mod sort;
mod symbols;
mod token;
mod vocabulary;

pub use laws::{first_fault_once, lexed_once, lexed_or_fault, lexed_sorts, lexed_without_fault};
pub use places::end_place;
pub use scanner::scan;
pub use sort::{LARGEST_ARITY, Sort, fits, same, sort_of};
pub use token::{ScanFault, Token, TokenKind};
