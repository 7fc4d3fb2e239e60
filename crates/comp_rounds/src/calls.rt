//! Which members of a component call which.
ghost use Rattle.std.specs.Prelude.{◌≡◌, ◌↔◌, ◌⊎◌, ◌<◌, ℕ, IfOk, OnOk, length, map, Contains};
ghost use Rattle.components.specs.Graph.{Leads, with_target};
ghost use Rattle.comp_rounds.specs.Calls.{AreCalls};
ghost use Rattle.comp_rounds.specs.Members.{function_of};
ghost use Rattle.comp_rounds.specs.Turns.{AllWithin};

use crate::members::Member;
use call_graph::{AsFunction, CallsAmong, calls_among};
use components::Graph;
use core_ast::FunDef;
use indexmap::IndexSet;
use std::alloc::Global;
use type_kinds::{Atom, List, Memory};

impl AsFunction for Member {
    ghost stands_for = { λ member. (member.home, member.def) };

    fn module_name(&self) -> &Atom {
        &self.home
    }

    fn definition(&self) -> &FunDef {
        self.def.get()
    }
}

/// The calls among members. `Memory` if allocation fails, or if there are 2^32 members or more.
pub fn calls_of(alloc: Global, members: &[Member]) -> Result<CallsAmong, Memory>
    ensures { IfOk result (AreCalls (map function_of members.now)) }
{
    let calls = calls_among(alloc, members)?;
    Ok(calls)
}

/// The numbers below this one. `Memory` if allocation fails.
pub fn all_numbers(alloc: Global, count: u32) -> Result<List<u32>, Memory>
    ensures all { IfOk result (λ list. (i : ℕ) → i < count → Contains list i) }
    ensures within { IfOk result (λ list. AllWithin list count) }
{
    let mut list = List::new(alloc);
    for number in 0..count {
        list.add(number)?;
    }
    Ok(list)
}

// Adds a number, unless it is there.
fn add(numbers: &mut IndexSet<u32>, number: u32) -> Result<(), Memory>
    ensures { OnOk result (numbers.new.keys ≡ with_target numbers.old.keys number) }
{
    match numbers.insert(number) {
        Ok(_) => Ok(()),
        Err(_) => Err(Memory),
    }
}

// Adds numbers.
fn add_all(numbers: &mut IndexSet<u32>, more: &[u32]) -> Result<(), Memory>
    ensures { OnOk result ((i : ℕ) → Contains numbers.new.keys i ↔ (Contains numbers.old.keys i ⊎ Contains more.now i)) }
{
    for number in more {
        add(numbers, *number)?;
    }
    Ok(())
}

/// Those that call some of these functions, each once. `Memory` if allocation fails.
pub fn callers_of(alloc: Global, callers: &Graph, functions: &[u32]) -> Result<List<u32>, Memory>
    requires functions { AllWithin functions.now (length callers.now) }
    requires inside { (i j : ℕ) → Leads callers.now j i → i < length callers.now }
    ensures all { IfOk result (λ list. (i j : ℕ) → Contains functions.now j → Leads callers.now j i → Contains list i) }
    ensures within { IfOk result (λ list. AllWithin list (length callers.now)) }
{
    let mut found = IndexSet::new(alloc);
    for function in functions {
        add_all(&mut found, callers.targets(*function))?;
    }
    List::from_slice(alloc, found.as_slice())
}
