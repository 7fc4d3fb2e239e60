// The state of the walk through a body, and its small steps.
ghost use Rattle.std.specs.Prelude.{◌≡◌, ℕ, [], ◌∷◌, ◌++◌, OnOk};
ghost use Rattle.core_ast.specs.Named.{literal_atom, local_name};
ghost use Rattle.core_ast.specs.Tree.{all_defs, tree};
ghost use Rattle.core_scope.specs.Asks.{function_name};
ghost use Rattle.core_scope.specs.Names.{defined_names};
ghost use Rattle.call_graph.specs.Targets.{applied, called, targets_of};
ghost use Rattle.call_graph.specs.steps.Walking.{defining, listed, noting};

use crate::table::{FunctionTable, Resolved};
use core_ast::{Expr, FunDef, FunName};
use core_scope::Names;
use std::alloc::Global;
use type_kinds::{Atom, List, Memory};

/// A call by literal module and name that goes to no function of modules that are analysed together: the
/// module's name, and the function's, with the number of arguments as its arity.
pub type OutsideCall = (Atom, FunName);

/// What a walk knows: all functions, the module of the body, the names of the `letrec` functions around, and,
/// as far as the body was walked, the numbers of the functions that it calls and its outside calls.
#[derive(Drop)]
pub struct CallWalk {
    alloc: Global,
    pub table: FunctionTable,
    pub home: Atom,
    pub locals: Names<FunName>,
    pub callees: List<u32>,
    pub outside: List<OutsideCall>,
}

impl CallWalk {
    /// Nothing was walked, and there is no `letrec` around.
    pub fn new(alloc: Global, table: FunctionTable, home: Atom) -> CallWalk
        ensures table { result.table ≡ table }
        ensures home { result.home ≡ home }
        ensures locals { result.locals ≡ [] }
        ensures callees { result.callees ≡ [] }
        ensures outside { result.outside ≡ [] }
    {
        CallWalk {
            alloc,
            table,
            home,
            locals: Names::new(alloc),
            callees: List::new(alloc),
            outside: List::new(alloc),
        }
    }

    /// Forgets what was noted, before another body is walked.
    pub fn forget(&mut self)
        ensures { self.new ≡ record self.old { callees = []; outside = [] } }
    {
        self.callees.truncate(0);
        self.outside.truncate(0);
    }

    /// Takes the outside calls out.
    pub fn take_outside(&mut self) -> List<OutsideCall>
        ensures result { result ≡ self.old.outside }
        ensures rest { self.new ≡ record self.old { outside = [] } }
    {
        std::mem::replace(&mut self.outside, List::new(self.alloc))
    }

    // Notes a function that is called, if there is one.
    fn note(&mut self, number: Option<u32>) -> Result<(), Memory>
        ensures { OnOk result (self.new ≡ record self.old { callees = self.old.callees ++ listed number }) }
    {
        match number {
            Some(number) => self.callees.add(number),
            None => Ok(()),
        }
    }

    // Notes a call that goes to no function. `Memory` for 2^32 arguments or more, too.
    fn note_outside(&mut self, home: &Atom, name: &Atom, count: usize) -> Result<(), Memory>
        ensures { OnOk result (self.new ≡ record self.old { outside = self.old.outside ++ (home.now, function_name name.now count) ∷ [] }) }
    {
        let Ok(arity) = u32::try_from(count) else {
            return Err(Memory);
        };
        let home = home.copy(self.alloc)?;
        let name = name.copy(self.alloc)?;
        self.outside.add((home, FunName { name, arity }))
    }

    /// Notes what an application of this operator calls, with any number of arguments.
    pub fn note_applied(&mut self, operator: &Expr) -> Result<(), Memory>
        ensures { OnOk result ((n : ℕ) → self.new ≡ noting self.old (targets_of (applied self.old.locals n (local_name (tree operator.now))))) }
    {
        let Some(name) = operator.local_name() else {
            return Ok(());
        };
        if self.locals.has(name) {
            return Ok(());
        }
        let number = self.table.own(&self.home, name)?;
        self.note(number)
    }

    /// Notes what a call of this module and name reaches, with `count` arguments, or that it reaches nothing.
    pub fn note_called(&mut self, home: &Expr, name: &Expr, count: usize) -> Result<(), Memory>
        ensures { OnOk result (self.new ≡ noting self.old (targets_of (called count (literal_atom (tree home.now)) (literal_atom (tree name.now))))) }
    {
        let Some(home) = home.atom() else {
            return Ok(());
        };
        let Some(name) = name.atom() else {
            return Ok(());
        };
        match self.table.called(home, name, count)? {
            Resolved::Function(number) => self.note(Some(number)),
            Resolved::NotPassed | Resolved::NotExported => self.note_outside(home, name, count),
            Resolved::BuiltIn => Ok(()),
        }
    }

    /// Names the functions of a `letrec`, whose bodies and whose own body are walked next.
    pub fn define_all(&mut self, defs: &[FunDef]) -> Result<(), Memory>
        ensures { OnOk result (self.new ≡ defining self.old (defined_names (all_defs defs.now))) }
    {
        for def in defs {
            self.locals.push(&def.name)?;
        }
        Ok(())
    }
}
