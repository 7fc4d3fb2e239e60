//! What is known of the functions of modules that are analysed together, by workers.
ghost use Rattle.std.specs.Prelude.{◌≡◌, ℕ, ◌<◌, ◌≤◌, List, length, map, IfOk, OnOk};
ghost use Rattle.core_scope.specs.Checked.{module_of, tree_of};
ghost use Rattle.core_scope.specs.Sets.{StandsEarlier};
ghost use Rattle.call_graph.specs.Calls.{functions_of};
ghost use Rattle.call_graph.specs.Outside.{outside_of};
ghost use Rattle.components.specs.Numbering.{IsNumbering};
ghost use Rattle.cons_tree.specs.Callees.{found};
ghost use Rattle.comp_rounds.specs.declared.parts.CompOut.{CompOut};
ghost use Rattle.comp_rounds.specs.Members.{function_of};
ghost use Rattle.analysis_summaries.specs.Known.{after_components, known_over};
ghost use Rattle.analysis_summaries.specs.Whole.{IsWholeOver};
ghost use Rattle.analysis_crew.specs.Parts.{AreSummariesOf, IsNumberingOf};
ghost use Rattle.analysis_crew.specs.steps.Making.{AreOutputsOf};

use crate::crew::outputs_by;
use crate::entering::enter_all;
use crate::laws::outputs_are_summaries;
use crate::memo::{CompMemo, discard_any};
use crate::parts::work_of;
use analysis_summaries::{all_members, close_modules, discard_members};
use call_graph::{OutsideCall, all_calls, outside_laws};
use comp_rounds::{CompOut, Member};
use components::{Comps, components};
use cons_tree::Summaries;
use core_scope::AsChecked;
use da_shelf::Gate;
use std::alloc::Global;
use std::sync::Wait;
use std::thread::Threads;
use type_kinds::{List, Memory, Shared};

/// Solves the functions of modules with distinct names by `workers` workers, from 1 to 64, over what is known of functions
/// of other modules, and answers how many functions there are. What is known then is that of `solve_modules`, whatever
/// the number of workers: each component is solved from its part and from the outputs of those that it calls. The caller
/// is the first worker; with one, no thread is started. `Memory` if allocation fails, or where there are 2^32 functions
/// or more; then what is known is of no use.
pub fn solve_modules_parallel<R: Threads + Wait + Sync, G: Gate + Sync, S: AsChecked>(
    rt: &R,
    alloc: Global,
    mods: &[S],
    known: &mut Summaries,
    workers: u32,
    gate: &G,
) -> Result<u32, Memory>
    requires distinct { (j : ℕ) → j < length mods.now → StandsEarlier (map (λ s. (module_of (S.stands_for s)).name) mods.now) j → ⊥ }
    requires least { 1 ≤ workers }
    requires most { workers ≤ 64 }
    ensures known { OnOk result (IsWholeOver (found known.old) (map (λ s. tree_of (S.stands_for s)) mods.now) (found known.new)) }
    ensures functions { IfOk result (λ functions. functions ≡ length (functions_of (map (λ s. tree_of (S.stands_for s)) mods.now))) }
{
    let mut memo = None;
    let functions = solve_modules_with(rt, alloc, mods, known, &mut memo, workers, gate);
    discard_any(memo);
    functions
}

/// The same, where a component isn't solved whose output the memo has, if there is one: that of the same part from the same
/// outputs. The memo is then that of all components that the workers finished. After `Memory` there may be none any more.
pub fn solve_modules_with<R: Threads + Wait + Sync, G: Gate + Sync, S: AsChecked>(
    rt: &R,
    alloc: Global,
    mods: &[S],
    known: &mut Summaries,
    memo: &mut Option<CompMemo>,
    workers: u32,
    gate: &G,
) -> Result<u32, Memory>
    requires distinct { (j : ℕ) → j < length mods.now → StandsEarlier (map (λ s. (module_of (S.stands_for s)).name) mods.now) j → ⊥ }
    requires least { 1 ≤ workers }
    requires most { workers ≤ 64 }
    ensures known { OnOk result (IsWholeOver (found known.old) (map (λ s. tree_of (S.stands_for s)) mods.now) (found known.new)) }
    ensures functions { IfOk result (λ functions. functions ≡ length (functions_of (map (λ s. tree_of (S.stands_for s)) mods.now))) }
{
    let calls = all_calls(alloc, mods)?;
    let comps = components(alloc, &calls.graph)?;
    solve_by(
        rt,
        alloc,
        mods,
        &calls.outside,
        &comps,
        known,
        memo,
        workers,
        gate,
    )?;
    Ok(calls.graph.count())
}

// Solves the functions of modules, where their components have these numbers and their calls outside are these.
fn solve_by<R: Threads + Wait + Sync, G: Gate + Sync, S: AsChecked>(
    rt: &R,
    alloc: Global,
    mods: &[S],
    outside: &List<List<OutsideCall>>,
    comps: &Comps,
    known: &mut Summaries,
    memo: &mut Option<CompMemo>,
    workers: u32,
    gate: &G,
) -> Result<(), Memory>
    requires distinct { (j : ℕ) → j < length mods.now → StandsEarlier (map (λ s. (module_of (S.stands_for s)).name) mods.now) j → ⊥ }
    requires numbering { IsNumberingOf (map (λ s. tree_of (S.stands_for s)) mods.now) comps.now }
    requires outside { outside.now ≡ map (outside_of (map (λ s. tree_of (S.stands_for s)) mods.now))
        (functions_of (map (λ s. tree_of (S.stands_for s)) mods.now)) }
    requires least { 1 ≤ workers }
    requires most { workers ≤ 64 }
    ensures { OnOk result (found known.new ≡ known_over (found known.old) (map (λ s. tree_of (S.stands_for s)) mods.now) comps.now) }
{
    outputs_are_summaries();
    outside_laws();
    close_modules(mods, known)?;
    let members = all_members(alloc, mods)?;
    let done = solve_members(
        rt, alloc, &members, outside, comps, known, memo, workers, gate,
    );
    discard_members(members);
    done
}

// Solves functions, where the outputs of their components are the summaries.
fn solve_members<R: Threads + Wait + Sync, G: Gate + Sync>(
    rt: &R,
    alloc: Global,
    members: &List<Member>,
    outside: &List<List<OutsideCall>>,
    comps: &Comps,
    known: &mut Summaries,
    memo: &mut Option<CompMemo>,
    workers: u32,
    gate: &G,
) -> Result<(), Memory>
    requires numbering { IsNumbering comps.now }
    requires summaries { (outputs : List CompOut) → AreOutputsOf (map function_of members.now) (found known.old) outside.now comps.now outputs
        → AreSummariesOf (found known.old) (map function_of members.now) comps.now outputs }
    requires least { 1 ≤ workers }
    requires most { workers ≤ 64 }
    ensures { OnOk result (found known.new ≡ after_components (found known.old) (map function_of members.now) comps.now comps.now.count) }
{
    let outputs = outputs_of(
        rt, alloc, known, members, outside, comps, memo, workers, gate,
    )?;
    enter_all(alloc, members, comps, &outputs, known)
}

// The outputs of all components, where this is known before any is solved.
fn outputs_of<R: Threads + Wait + Sync, G: Gate + Sync>(
    rt: &R,
    alloc: Global,
    first: &Summaries,
    members: &List<Member>,
    outside: &List<List<OutsideCall>>,
    comps: &Comps,
    memo: &mut Option<CompMemo>,
    workers: u32,
    gate: &G,
) -> Result<List<Shared<CompOut>>, Memory>
    requires numbering { IsNumbering comps.now }
    requires least { 1 ≤ workers }
    requires most { workers ≤ 64 }
    ensures { IfOk result (λ outputs. AreOutputsOf (map function_of members.now) (found first.now) outside.now comps.now outputs) }
{
    let work = work_of(alloc, first, members, outside, comps)?;
    outputs_by(rt, alloc, work, memo, workers, gate)
}
