//! What expressions without parts say, each at a slot of its own.
ghost use Rattle.std.specs.Prelude.{[], OnOk};
ghost use Rattle.cons_gen_rows.specs.Scopes.{slot_of};
ghost use Rattle.cons_gen_rows.specs.Walking.{Adds};
ghost use Rattle.cons_gen_rows.specs.Words.{bound, function_type, literal_type, variable_rows};

use crate::generator::Generator;
use crate::types::{function_type, literal_type};
use core_ast::Literal;
use type_kinds::{Atom, Memory};

impl Generator {
    /// A variable: it has the value of the slot that it is bound to.
    pub fn variable(&mut self, name: &Atom) -> Result<(), Memory>
        ensures { OnOk result (Adds self.old self.new 1 (variable_rows (slot_of self.old.variables name.now) self.old.next)) }
    {
        let own = self.take(1)?;
        match self.variables.slot_of(name) {
            Some(slot) => self.equal(slot, own),
            None => Ok(()),
        }
    }

    /// A function of `count` arguments.
    pub fn function(&mut self, count: usize) -> Result<(), Memory>
        ensures { OnOk result (Adds self.old self.new 1 (bound self.old.next (function_type count))) }
    {
        let own = self.take(1)?;
        self.bound(own, function_type(count))
    }

    /// A literal.
    pub fn literal(&mut self, literal: &Literal) -> Result<(), Memory>
        ensures { OnOk result (Adds self.old self.new 1 (bound self.old.next (literal_type literal.now))) }
    {
        let own = self.take(1)?;
        let ty = literal_type(self.alloc, literal)?;
        self.bound(own, ty)
    }

    /// A value of which nothing is known.
    pub fn free(&mut self) -> Result<(), Memory>
        ensures { OnOk result (Adds self.old self.new 1 []) }
    {
        self.take(1)?;
        Ok(())
    }
}
