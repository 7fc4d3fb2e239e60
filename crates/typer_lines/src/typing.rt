//! What is known of a function.
use cons_tree::Sig;
use core_ast::FunName;
use type_kinds::Atom;

/// How many arguments a typing's function may have.
pub const MOST_ARGUMENTS: u32 = 255;

/// A function, by its module and its name, with the types of its arguments and of its value.
#[derive(Drop)]
pub struct Typing {
    pub home: Atom,
    pub name: FunName,
    pub sig: Sig,
}
