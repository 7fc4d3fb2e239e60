//! What a pass knows of the functions that a text calls.
ghost use Rattle.std.specs.Prelude.{◌≡◌};
ghost use Rattle.cons_gen_rows.specs.Knowing.{is_lenient, is_own};

use crate::members::Members;
use cons_tree::Summaries;
use core_ast::FunName;
use type_kinds::Atom;

/// How calls are taken.
#[derive(Drop)]
pub enum Pass {
    /// By the signatures of all calls that may return.
    Strict,
    /// By the signatures by which calls are reported, with nothing known of the component's own functions, and
    /// with a built-in function that never returns giving any value.
    Lenient(Members),
}

/// The module in which a text stands, and what is known of the functions that it calls.
#[derive(Clone, Copy)]
pub struct Surroundings<'a> {
    pub home: &'a Atom,
    pub known: &'a Summaries,
    pub pass: &'a Pass,
}

impl Pass {
    /// Whether the pass is the lenient one.
    pub fn is_lenient(&self) -> bool
        ensures { result ≡ is_lenient self.now }
    {
        matches!(self, Pass::Lenient(_))
    }

    /// Whether a function is one of the component's own, of whose calls the pass knows nothing.
    pub fn is_own(&self, home: &Atom, name: &FunName) -> bool
        ensures { result ≡ is_own self.now home.now name.now }
    {
        match self {
            Pass::Strict => false,
            Pass::Lenient(members) => members.has(home, name),
        }
    }
}
