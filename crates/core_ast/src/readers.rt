ghost use Rattle.std.specs.Prelude.{◌≡◌, Some, None, IfOk, MatchOption};
ghost use Rattle.core_ast.specs.Tree.{tree};
ghost use Rattle.core_ast.specs.Named.{literal_atom, local_name};

use crate::syntax::{Expr, Form, FunName, Literal};
use std::alloc::Global;
use type_kinds::{Atom, Memory};

impl FunName {
    /// A second name, equal to the first.
    pub fn copy(&self, alloc: Global) -> Result<FunName, Memory>
        ensures { IfOk result (λ copy. copy ≡ self.now) }
    {
        match self.name.copy(alloc) {
            Ok(name) => Ok(FunName {
                name,
                arity: self.arity,
            }),
            Err(Memory) => Err(Memory),
        }
    }
}

impl Expr {
    /// The atom, where the expression is the literal of one.
    #[tactic(auto, using(crate::proofs::Names::named_exits))]
    pub fn atom(&self) -> Option<&Atom>
        ensures { MatchOption result (literal_atom (tree self.now) ≡ None) (λ name. literal_atom (tree self.now) ≡ Some name.now) }
    {
        match &self.form {
            Form::Lit(literal) => match literal {
                Literal::Atom(name) => Some(name),
                _ => None,
            },
            _ => None,
        }
    }

    /// The function's name, where the expression is one.
    #[tactic(auto, using(crate::proofs::Names::named_exits))]
    pub fn local_name(&self) -> Option<&FunName>
        ensures { MatchOption result (local_name (tree self.now) ≡ None) (λ name. local_name (tree self.now) ≡ Some name.now) }
    {
        match &self.form {
            Form::Local(name) => Some(name),
            _ => None,
        }
    }
}
