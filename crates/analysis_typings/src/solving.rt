//! The summaries of all functions of modules, by any number of workers.
ghost use Rattle.std.specs.Prelude.{◌≡◌, ℕ, ◌<◌, ◌≤◌, ◌^◌, length, map, IfOk, IfErr, OnOk};
ghost use Rattle.type_kinds.specs.declared.atom.Atom.{Atom as AtomName};
ghost use Rattle.core_ast.specs.declared.syntax.FunName.{FunName as TheName};
ghost use Rattle.core_scope.specs.Checked.{module_of, tree_of};
ghost use Rattle.core_scope.specs.Sets.{StandsEarlier};
ghost use Rattle.cons_tree.specs.Callees.{found};
ghost use Rattle.cons_tree.specs.declared.parts.Callee.TheVariants.{Unknown};
ghost use Rattle.analysis_typings.specs.Typings.{AreTypings, IsNoSet};

use crate::listing::all_summaries;
use analysis_crew::solve_modules_parallel;
use cons_tree::{Summaries, Summary};
use core_scope::{AsChecked, SetFault, check_set};
use da_shelf::Gate;
use std::alloc::Global;
use std::sync::Wait;
use std::thread::Threads;
use type_kinds::{List, Memory};

/// Why modules have no summaries.
#[derive(Clone, Copy, Debug, PartialEq, Eq)]
pub enum SummariesFault {
    /// They can't be analysed together.
    Set(SetFault),
    /// Allocation failed, or there are 2^32 functions or more. This says nothing of the modules.
    Memory,
}

/// The summaries of the functions of modules, where nothing is known of other modules: module by module as they are passed, and
/// definition by definition in the order of the text. The functions are solved component by component, each after those that it
/// calls, by `workers` workers, of which the caller is one. The answer is a function of the modules. Each component is solved between
/// `enter` and `leave` of the gate. The call may wait for workers.
///
/// `Set`: two modules have the same name.
pub fn summaries<R: Threads + Wait + Sync, S: AsChecked, G: Gate + Sync>(
    rt: &R,
    alloc: Global,
    mods: &[S],
    workers: u32,
    gate: &G,
) -> Result<List<List<Summary>>, SummariesFault>
    requires few { length mods.now < 2 ^ 32 }
    requires least { 1 ≤ workers }
    requires most { workers ≤ 64 }
    ensures distinct { OnOk result ((j : ℕ) → j < length mods.now → StandsEarlier (map (λ s. (module_of (S.stands_for s)).name) mods.now) j → ⊥) }
    ensures typings { IfOk result (λ all. AreTypings (map (λ s. tree_of (S.stands_for s)) mods.now) all) }
    ensures set { IfErr result (IsNoSet (map (λ s. (module_of (S.stands_for s)).name) mods.now)) }
{
    if let Err(fault) = check_set(mods) {
        return Err(SummariesFault::Set(fault));
    }
    match solved(rt, alloc, mods, workers, gate) {
        Ok(found) => Ok(found),
        Err(Memory) => Err(SummariesFault::Memory),
    }
}

// The same for modules with distinct names.
fn solved<R: Threads + Wait + Sync, S: AsChecked, G: Gate + Sync>(
    rt: &R,
    alloc: Global,
    mods: &[S],
    workers: u32,
    gate: &G,
) -> Result<List<List<Summary>>, Memory>
    requires distinct { (j : ℕ) → j < length mods.now → StandsEarlier (map (λ s. (module_of (S.stands_for s)).name) mods.now) j → ⊥ }
    requires least { 1 ≤ workers }
    requires most { workers ≤ 64 }
    ensures typings { IfOk result (λ all. AreTypings (map (λ s. tree_of (S.stands_for s)) mods.now) all) }
{
    let mut known = Summaries::new(alloc);
    let found = listed(rt, alloc, mods, &mut known, workers, gate);
    discard_known(known);
    found
}

// Drops what is known.
fn discard_known(_known: Summaries) {}

// The same, where nothing is known of other modules. Behind it, or where allocation failed, what is known is of no use.
fn listed<R: Threads + Wait + Sync, S: AsChecked, G: Gate + Sync>(
    rt: &R,
    alloc: Global,
    mods: &[S],
    known: &mut Summaries,
    workers: u32,
    gate: &G,
) -> Result<List<List<Summary>>, Memory>
    requires distinct { (j : ℕ) → j < length mods.now → StandsEarlier (map (λ s. (module_of (S.stands_for s)).name) mods.now) j → ⊥ }
    requires nothing { (h : AtomName) (f : TheName) → found known.old h f ≡ Unknown }
    requires least { 1 ≤ workers }
    requires most { workers ≤ 64 }
    ensures { IfOk result (λ all. AreTypings (map (λ s. tree_of (S.stands_for s)) mods.now) all) }
{
    solve_modules_parallel(rt, alloc, mods, known, workers, gate)?;
    all_summaries(alloc, mods, known)
}
