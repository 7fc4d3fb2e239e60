// The state of the walk through a module, and its small steps.
ghost use Rattle.std.specs.Prelude.{◌≡◌, [], ◌∷◌, not, None, drop, OnOk};
ghost use Rattle.core_ast.specs.Tree.{tree, all_defs};
ghost use Rattle.core_scope.specs.Names.{has_function, bound, bound_by, defined_names};
ghost use Rattle.core_scope.specs.Accepted.{rule_number};
ghost use Rattle.core_scope.specs.Breaks.{unless, degree, use_of_variable, use_of_function, new_variable, new_variables, new_functions, arity_of};
ghost use Rattle.core_scope.specs.declared.fault.ScopeRule.TheVariants.{DistinctFunctions};
ghost use Rattle.core_scope.specs.steps.State.{is_before, scope_of, noting, binding, defining};

use crate::ask::Ask;
use crate::degrees::{gives, is_text, suffices};
use crate::fault::{Break, ScopeRule};
use crate::names::Names;
use core_ast::{Expr, FunDef, FunName, VarName};
use std::alloc::Global;
use type_kinds::{Atom, Memory, Place};

/// What is bound and defined now, and the first break so far.
#[derive(Drop)]
pub struct Walk {
    pub variables: Names<Atom>,
    pub functions: Names<FunName>,
    pub first: Option<Break>,
}

/// Drops a walk.
pub fn discard_walk(_walk: Walk) {}

impl ScopeRule {
    /// Its number among all refusals.
    pub fn number(self) -> u32
        ensures { result ≡ rule_number self }
    {
        match self {
            ScopeRule::BoundVariables => 8,
            ScopeRule::DistinctVariables => 9,
            ScopeRule::DefinedFunctions => 10,
            ScopeRule::DistinctFunctions => 11,
            ScopeRule::DefinedExports => 12,
            ScopeRule::Degrees => 13,
        }
    }
}

impl Break {
    // Whether it comes before another: at an earlier place, or at its place with a lower number.
    fn is_before(self, other: Break) -> bool
        ensures { result ≡ is_before self other }
    {
        let (here, there) = (self.place, other.place);
        here.byte < there.byte
            || (here.byte == there.byte
                && (here.line < there.line
                    || (here.line == there.line && self.rule.number() < other.rule.number())))
    }
}

impl Walk {
    /// Nothing is bound or defined, and no break was met.
    pub fn new(alloc: Global) -> Walk
        ensures variables { result.variables ≡ [] }
        ensures functions { result.functions ≡ [] }
        ensures first { result.first ≡ None }
    {
        Walk {
            variables: Names::new(alloc),
            functions: Names::new(alloc),
            first: None,
        }
    }

    /// Notes that a rule is broken at a place, unless it holds.
    pub fn test(&mut self, holds: bool, rule: ScopeRule, place: Place)
        ensures { self.new ≡ noting self.old (unless holds rule place) }
    {
        if holds {
            return;
        }
        let found = Break { place, rule };
        match self.first {
            Some(first) => {
                if found.is_before(first) {
                    self.first = Some(found);
                }
            }
            None => self.first = Some(found),
        }
    }

    /// Tests that an expression gives what its place asks for.
    pub fn degree(&mut self, ask: Ask, expr: &Expr)
        ensures { self.new ≡ noting self.old (degree ask expr.now.mark (tree expr.now)) }
    {
        self.test(
            suffices(ask, gives(expr)),
            ScopeRule::Degrees,
            expr.mark.place,
        );
    }

    /// Tests that a variable is bound.
    pub fn use_variable(&mut self, name: &Atom, place: Place)
        ensures { self.new ≡ noting self.old (use_of_variable (scope_of self.old) name.now place) }
    {
        let holds = self.variables.has(name);
        self.test(holds, ScopeRule::BoundVariables, place);
    }

    /// Tests that a function is defined.
    pub fn use_function(&mut self, name: &FunName, place: Place)
        ensures { self.new ≡ noting self.old (use_of_function (scope_of self.old) name.now place) }
    {
        let holds = self.functions.has(name);
        self.test(holds, ScopeRule::DefinedFunctions, place);
    }

    /// Binds a variable, and tests that it wasn't bound since there were `from` variables. `_` binds
    /// nothing.
    pub fn bind(&mut self, from: usize, name: &Atom, place: Place) -> Result<(), Memory>
        ensures { OnOk result (self.new ≡ binding self.old (bound name.now) (new_variable (drop from self.old.variables) name.now place)) }
    {
        let holds = !self.variables.has_since(from, name);
        self.test(holds, ScopeRule::DistinctVariables, place);
        if is_text(name, b"_") {
            return Ok(());
        }
        self.variables.push(name)
    }

    /// Binds a list of variables, and tests that none of them stands twice.
    pub fn bind_all(&mut self, vars: &[VarName]) -> Result<(), Memory>
        ensures { OnOk result (self.new ≡ binding self.old (bound_by vars.now) (new_variables [] vars.now)) }
    {
        let from = self.variables.len();
        for var in vars {
            self.bind(from, &var.name, var.place)?;
        }
        Ok(())
    }

    /// Defines a function, and tests that it wasn't defined since there were `from` functions.
    pub fn define(&mut self, from: usize, def: &FunDef) -> Result<(), Memory>
        ensures { OnOk result (self.new ≡ defining self.old (def.now.name ∷ [])
            (unless (not (has_function (drop from self.old.functions) def.now.name)) DistinctFunctions def.now.mark.place)) }
    {
        let holds = !self.functions.has_since(from, &def.name);
        self.test(holds, ScopeRule::DistinctFunctions, def.mark.place);
        self.functions.push(&def.name)
    }

    /// Defines the functions of a `letrec`, and tests that none is defined twice.
    pub fn define_all(&mut self, defs: &[FunDef]) -> Result<(), Memory>
        ensures { OnOk result (self.new ≡ defining self.old (defined_names (all_defs defs.now)) (new_functions [] (all_defs defs.now))) }
    {
        let from = self.functions.len();
        for def in defs {
            self.define(from, def)?;
        }
        Ok(())
    }

    /// Tests that a fun has as many parameters as its name's arity.
    pub fn arity(&mut self, def: &FunDef)
        ensures { self.new ≡ noting self.old (arity_of def.now.name def.now.mark def.now.fun.params) }
    {
        let holds = def.fun.params.len() == def.name.arity as usize;
        self.test(holds, ScopeRule::Degrees, def.mark.place);
    }
}
