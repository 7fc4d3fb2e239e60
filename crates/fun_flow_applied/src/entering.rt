//! What an application may enter, as it is listed.
ghost use Rattle.std.specs.Prelude.{◌≡◌, ◌++◌, [], option_copied, slice_get, OnOk, IfOk};
ghost use Rattle.std.specs.List.{cons_option};
ghost use Rattle.fun_flow_answers.specs.declared.target.Target.TheVariants.{Name};
ghost use Rattle.fun_flow_applied.specs.steps.Entering.{AreEntered, anything_in, closure_in, is_anything, item_in, listed_in, target_in};

use crate::module_text::{ModuleText, line_at};
use core_ast::FunName;
use fun_flow_answers::{ListedTargets, Target, ascending};
use fun_flow_numbers::FunctionSets;
use fun_flow_places::{FlowPlace, Item};
use std::alloc::Global;
use type_kinds::{Atom, Memory};

/// The functions with so many parameters that a place holds, or anything.
pub fn entered(
    alloc: Global,
    sets: &FunctionSets,
    texts: &[ModuleText],
    operator: &FlowPlace,
    arity: usize,
) -> Result<ListedTargets, Memory>
    ensures { IfOk result (λ targets. AreEntered texts.now sets.now operator.now arity targets) }
{
    let held = sets.held(operator);
    let mut found = Vec::new(alloc);
    for number in held {
        let anything = add_item(alloc, texts, sets.item(*number), arity, &mut found)?;
        if anything {
            return Ok(ListedTargets::Anything);
        }
    }
    Ok(ListedTargets::Only(ascending(found)))
}

// Adds how an item is listed, where it has so many parameters, and says whether it is anything.
fn add_item(
    alloc: Global,
    texts: &[ModuleText],
    item: Option<&Item>,
    arity: usize,
    found: &mut Vec<Target>,
) -> Result<bool, Memory>
    ensures anything { IfOk result (λ anything. anything ≡ anything_in (option_copied item.entry)) }
    ensures adds { OnOk result (found.new.items ≡ found.old.items ++ cons_option (item_in texts.now arity (option_copied item.entry)) []) }
{
    match item {
        None => Ok(false),
        Some(item) => {
            add_listed(alloc, texts, item, arity, found)?;
            Ok(is_anything(item))
        }
    }
}

fn is_anything(item: &Item) -> bool
    ensures { result ≡ is_anything item.now }
{
    match item {
        Item::Anything => true,
        Item::Closure(_, _, _) | Item::External(_, _) => false,
    }
}

// Adds how a function is listed, where it has so many parameters.
fn add_listed(
    alloc: Global,
    texts: &[ModuleText],
    item: &Item,
    arity: usize,
    found: &mut Vec<Target>,
) -> Result<(), Memory>
    ensures { OnOk result (found.new.items ≡ found.old.items ++ cons_option (listed_in texts.now arity item.now) []) }
{
    if item.arity() != arity {
        return Ok(());
    }
    match target_of(alloc, texts, item)? {
        None => Ok(()),
        Some(target) => match found.push(target) {
            Ok(()) => Ok(()),
            Err(_) => Err(Memory),
        },
    }
}

// How a function is listed.
fn target_of(alloc: Global, texts: &[ModuleText], item: &Item) -> Result<Option<Target>, Memory>
    ensures { IfOk result (λ target. target ≡ target_in texts.now item.now) }
{
    match item {
        Item::Anything => Ok(None),
        Item::Closure(module, label, _) => closure_target(alloc, texts, *module, *label),
        Item::External(home, name) => Ok(Some(named(alloc, home, name)?)),
    }
}

// How the closures of the function at a label of a module are listed.
fn closure_target(
    alloc: Global,
    texts: &[ModuleText],
    module: usize,
    label: u32,
) -> Result<Option<Target>, Memory>
    ensures { IfOk result (λ target. target ≡ closure_in «module» label (slice_get texts.now «module»)) }
{
    let Some(text) = texts.get(module) else {
        return Ok(None);
    };
    if let Some(name) = text.definitions.get(&label) {
        return Ok(Some(named(alloc, text.home, *name)?));
    }
    match u32::try_from(module) {
        Ok(module) => Ok(Some(Target::Fun(module, label, line_at(text, label)))),
        Err(_) => Err(Memory),
    }
}

fn named(alloc: Global, home: &Atom, name: &FunName) -> Result<Target, Memory>
    ensures { IfOk result (λ target. target ≡ Name home.now name.now) }
{
    let home = home.copy(alloc)?;
    let name = FunName {
        name: name.name.copy(alloc)?,
        arity: name.arity,
    };
    Ok(Target::Name(home, name))
}
