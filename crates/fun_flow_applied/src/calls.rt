//! The list of applications.
ghost use Rattle.std.specs.Prelude.{ℕ, ◌<◌, Contains, length, map, IfOk};
ghost use Rattle.std.specs.List.{AllZip};
ghost use Rattle.core_scope.specs.Checked.{module_of, tree_of};
ghost use Rattle.core_scope.specs.Sets.{StandsEarlier};
ghost use Rattle.fun_flow_answers.specs.Answers.{AreCalls};
ghost use Rattle.fun_flow_applied.specs.declared.applications.AppliedValue.{AppliedValue as FoundValue};
ghost use Rattle.fun_flow_applied.specs.steps.Calls.{IsCallOf};

use crate::applications::{AppliedValue, applications};
use crate::entering::entered;
use crate::module_text::{ModuleText, line_at, module_texts};
use core_scope::AsChecked;
use fun_flow_answers::AppliedCall;
use fun_flow_numbers::{FunctionSets, function_sets, names_and_positions};
use fun_flow_places::module_table;
use fun_flow_rules::program_rules;
use std::alloc::Global;
use type_kinds::{List, Memory};

/// The applications of values in modules with distinct names, by the modules as they are passed and by their labels: for each the
/// functions that it may enter, or anything. `Memory`: allocation failed, or there are 2^32 modules, arguments, places or functions
/// or more.
pub fn applied<S: AsChecked>(alloc: Global, mods: &[S]) -> Result<List<AppliedCall>, Memory>
    requires distinct { (j : ℕ) → j < length mods.now → StandsEarlier (map (λ s. (module_of (S.stands_for s)).name) mods.now) j → ⊥ }
    ensures { IfOk result (λ calls. AreCalls (map (λ s. tree_of (S.stands_for s)) mods.now) calls) }
{
    names_and_positions();
    let rules = program_rules(alloc, mods)?;
    let table = module_table(alloc, mods)?;
    let sets = function_sets(alloc, &table, rules.as_slice())?;
    let texts = module_texts(alloc, mods)?;
    let found = applications(alloc, rules.as_slice(), mods.len())?;
    calls_of(alloc, &sets, texts.as_slice(), found.as_slice())
}

// What is listed of applications.
fn calls_of(
    alloc: Global,
    sets: &FunctionSets,
    texts: &[ModuleText],
    found: &[AppliedValue],
) -> Result<List<AppliedCall>, Memory>
    requires there { (a : FoundValue) → Contains found.now a → a.«module» < length texts.now }
    ensures { IfOk result (λ calls. AllZip (IsCallOf texts.now sets.now) found.now calls) }
{
    let mut calls = List::new(alloc);
    for application in found {
        let call = call_of(alloc, sets, texts, application)?;
        calls.add(call)?;
    }
    Ok(calls)
}

// What is listed of an application.
fn call_of(
    alloc: Global,
    sets: &FunctionSets,
    texts: &[ModuleText],
    application: &AppliedValue,
) -> Result<AppliedCall, Memory>
    requires there { application.now.«module» < length texts.now }
    ensures { IfOk result (λ call. IsCallOf texts.now sets.now application.now call) }
{
    let Ok(module) = u32::try_from(application.module) else {
        return Err(Memory);
    };
    let Ok(arity) = u32::try_from(application.arity) else {
        return Err(Memory);
    };
    let line = line_at(&texts[application.module], application.label);
    let targets = entered(alloc, sets, texts, &application.operator, application.arity)?;
    Ok(AppliedCall {
        module,
        label: application.label,
        line,
        arity,
        targets,
    })
}
