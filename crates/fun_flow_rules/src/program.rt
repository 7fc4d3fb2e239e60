//! The walk through modules and programs.
ghost use Rattle.std.specs.Prelude.{◌≡◌, ℕ, ◌<◌, [], length, map, IfOk, OnOk};
ghost use Rattle.core_ast.specs.Tree.{all_defs, module_tree};
ghost use Rattle.core_scope.specs.Checked.{module_of, tree_of};
ghost use Rattle.core_scope.specs.Sets.{StandsEarlier};
ghost use Rattle.fun_flow_places.specs.Naming.{AreRulesOf};
ghost use Rattle.fun_flow_sets.specs.Rules.{opens_definition, rules_of_definitions};
ghost use Rattle.fun_flow_sets.specs.Scopes.{definition_of};
ghost use Rattle.fun_flow_rules.specs.steps.Walking.{Makes, WalksModule, opened_rules};

use crate::expressions::walk_body;
use crate::walk::RuleWalk;
use core_ast::{FunDef, FunName, Module};
use core_scope::AsChecked;
use fun_flow_places::{FlowRule, define_module, module_table};
use std::alloc::Global;
use type_kinds::{List, Memory, Shared};

/// The rules that the text of modules with distinct names makes: each of them, and no others. Their order isn't
/// promised. `Memory` if allocation fails, or a call of literal names has 2^32 arguments or more.
pub fn program_rules<S: AsChecked>(alloc: Global, mods: &[S]) -> Result<List<FlowRule>, Memory>
    requires distinct { (j : ℕ) → j < length mods.now → StandsEarlier (map (λ s. (module_of (S.stands_for s)).name) mods.now) j → ⊥ }
    ensures { IfOk result (λ rules. AreRulesOf (map (λ s. tree_of (S.stands_for s)) mods.now) rules) }
{
    let table = module_table(alloc, mods)?;
    let mut walk = RuleWalk::new(alloc, table);
    for position in 0..mods.len() {
        let source = &mods[position];
        walk_module(&mut walk, position, source.checked().module())?;
    }
    Ok(walk.take_rules())
}

// The module at a position.
fn walk_module(walk: &mut RuleWalk, position: usize, source: &Module) -> Result<(), Memory>
    ensures { OnOk result (WalksModule walk.old walk.new position (module_tree source.now)) }
{
    walk.home = position;
    define_module(&mut walk.functions, source.defs.as_slice())?;
    walk_exports(walk, source.exports.as_slice())?;
    walk_definitions(walk, source.defs.as_slice())?;
    walk.functions.leave(0);
    Ok(())
}

// The exports, whose parameters may be anything.
fn walk_exports(walk: &mut RuleWalk, names: &[FunName]) -> Result<(), Memory>
    ensures { OnOk result (Makes walk.old walk.new (λ U home sc. opened_rules U home sc names.now)) }
{
    for name in names {
        walk_export(walk, name)?;
    }
    Ok(())
}

// An export, where it is defined.
fn walk_export(walk: &mut RuleWalk, name: &FunName) -> Result<(), Memory>
    ensures { OnOk result (Makes walk.old walk.new (λ U home sc. opens_definition home (definition_of U home sc name.now))) }
{
    match walk.functions.get(name) {
        Some(label) => walk.open_parameters(label, name.arity as usize),
        None => Ok(()),
    }
}

// The definitions of a module.
fn walk_definitions(walk: &mut RuleWalk, defs: &[Shared<FunDef>]) -> Result<(), Memory>
    ensures { OnOk result (Makes walk.old walk.new (λ U home sc. rules_of_definitions U home sc (all_defs defs.now))) }
{
    for def in defs {
        let def = def.get();
        walk_body(
            walk,
            def.mark.label,
            def.fun.params.as_slice(),
            def.fun.body.get(),
        )?;
    }
    Ok(())
}
