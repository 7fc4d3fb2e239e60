// The call that accepts a module, or names its first break.
ghost use Rattle.std.specs.Prelude.{◌≡◌, ◌≢◌, IfOk, IfErr, OnOk, [], None};
ghost use Rattle.core_ast.specs.Tree.{all_defs, module_tree};
ghost use Rattle.core_scope.specs.Accepted.{IsSpelled, IsAccepted, FirstBreak, fault_of};
ghost use Rattle.core_scope.specs.Names.{defined_names};
ghost use Rattle.core_scope.specs.Breaks.{new_functions, def_breaks, next_place, other_places, export_breaks, module_breaks};
ghost use Rattle.core_scope.specs.Checked.{module_of, tree_of};
ghost use Rattle.core_scope.specs.steps.State.{first_of, scope_of, noting, defining};

use crate::ask::Ask;
use crate::checked::Checked;
use crate::expressions::walk_under;
use crate::fault::{Break, ScopeFault, ScopeRule};
use crate::walk::{Walk, discard_walk};
use core_ast::{FunDef, FunName, Module, discard_module};
use std::alloc::Global;
use type_kinds::{Memory, Place, Shared};

const START: Place = Place { byte: 0, line: 1 };

impl Break {
    // The fault that names the break.
    fn fault(self) -> ScopeFault
        ensures { result ≡ fault_of self }
    {
        match self.rule {
            ScopeRule::BoundVariables => ScopeFault::Unbound(self.place),
            ScopeRule::DistinctVariables => ScopeFault::RepeatedVariable(self.place),
            ScopeRule::DefinedFunctions => ScopeFault::UndefinedFunction(self.place),
            ScopeRule::DistinctFunctions => ScopeFault::RepeatedFunction(self.place),
            ScopeRule::DefinedExports => ScopeFault::BadExport(self.place),
            ScopeRule::Degrees => ScopeFault::Degree(self.place),
        }
    }
}

/// Accepts a module that some text spells, where it breaks no rule of scopes and degrees.
///
/// A refusal names the first break: the one at the least place, and of those there the one of the
/// lowest number (`ScopeRule` has them in their order). The module is then dropped. `Memory`: allocation
/// failed. This says nothing of the module.
pub fn check(alloc: Global, source: Module) -> Result<Checked, ScopeFault>
    requires spelled { IsSpelled (module_tree source) }
    ensures same { IfOk result (λ checked. module_of checked ≡ source) }
    ensures accepted { IfOk result (λ checked. module_breaks (module_tree source) ≡ []) }
    ensures refused { IfErr result (λ fault. fault ≢ ScopeFault.Memory → (b : Break) × (fault ≡ fault_of b) × FirstBreak (module_tree source) b) }
{
    match first_break(alloc, &source) {
        Ok(None) => Ok(Checked::accept(source)),
        Ok(Some(first)) => {
            discard_module(source);
            Err(first.fault())
        }
        Err(Memory) => {
            discard_module(source);
            Err(ScopeFault::Memory)
        }
    }
}

// The first break of a module.
fn first_break(alloc: Global, source: &Module) -> Result<Option<Break>, Memory>
    ensures { IfOk result (λ first. first ≡ first_of None (module_breaks (module_tree source.now))) }
{
    let mut walk = Walk::new(alloc);
    let walked = walk_module(&mut walk, source);
    let first = walk.first;
    discard_walk(walk);
    match walked {
        Ok(()) => Ok(first),
        Err(Memory) => Err(Memory),
    }
}

// The whole of a module, where nothing is bound or defined yet.
fn walk_module(walk: &mut Walk, source: &Module) -> Result<(), Memory>
    requires variables { walk.old.variables ≡ [] }
    requires functions { walk.old.functions ≡ [] }
    requires first { walk.old.first ≡ None }
    ensures { OnOk result (walk.new.first ≡ first_of None (module_breaks (module_tree source.now))) }
{
    let defs = source.defs.as_slice();
    define_all(walk, defs)?;
    walk_exports(
        walk,
        source.exports.as_slice(),
        source.export_places.as_slice(),
    );
    walk_definitions(walk, defs)
}

// Defines the functions of a module, and tests that none is defined twice.
fn define_all(walk: &mut Walk, defs: &[Shared<FunDef>]) -> Result<(), Memory>
    ensures { OnOk result (walk.new ≡ defining walk.old (defined_names (all_defs defs.now)) (new_functions [] (all_defs defs.now))) }
{
    let from = walk.functions.len();
    for def in defs {
        walk.define(from, def.get())?;
    }
    Ok(())
}

// The funs of a module.
fn walk_definitions(walk: &mut Walk, defs: &[Shared<FunDef>]) -> Result<(), Memory>
    ensures { OnOk result (walk.new ≡ noting walk.old (def_breaks (scope_of walk.old) (all_defs defs.now))) }
{
    for def in defs {
        let def = def.get();
        walk.arity(def);
        walk_under(
            walk,
            Ask::Exactly(1),
            def.fun.params.as_slice(),
            def.fun.body.get(),
        )?;
    }
    Ok(())
}

// The exports of a module: each is among the functions.
fn walk_exports(walk: &mut Walk, exports: &[FunName], places: &[Place])
    ensures { walk.new ≡ noting walk.old (export_breaks walk.old.functions exports.now places.now) }
{
    let mut left = places;
    for name in exports {
        let (place, rest) = next_place(left);
        let holds = walk.functions.has(name);
        walk.test(holds, ScopeRule::DefinedExports, place);
        left = rest;
    }
}

// The place of the next export, and those behind it; where none is told, the beginning of the text.
fn next_place<'a>(places: &'a [Place]) -> (Place, &'a [Place])
    ensures place { result.0 ≡ next_place places.now }
    ensures rest { result.1.now ≡ other_places places.now }
{
    match places.split_first() {
        Some((first, rest)) => (*first, rest),
        None => (START, places),
    }
}
