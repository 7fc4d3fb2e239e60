//! Reports that are kept from one analysis to the next, each with what it rests on.
ghost use Rattle.std.specs.Prelude.{◌≡◌, ◌++◌, All, IfOk, IsTrue, OnOk, map};
ghost use Rattle.core_scope.specs.Checked.{tree_of};
ghost use Rattle.cons_tree.specs.Callees.{found};
ghost use Rattle.module_flow.specs.Flow.{findings};
ghost use Rattle.warn_list.specs.Lines.{AreLines};
ghost use Rattle.analysis.specs.Keeping.{IsClosedOn, IsKeptOf, IsStill, rest_of, rests_of};

use call_graph::OutsideCall;
use cons_tree::{Callee, Summaries};
use core_ast::{FunDef, FunName};
use core_scope::Checked;
use std::alloc::Global;
use table_keep::called_functions;
use type_kinds::{Atom, Bytes, List, Memory, Shared};

/// What was known of a function.
#[derive(Drop)]
pub struct Rest {
    pub home: Atom,
    pub name: FunName,
    pub callee: Callee,
}

/// The lines of the report on a module, and what they rest on: what was known of the functions that the module defines, and of
/// those that it calls in other modules.
#[derive(Drop)]
pub struct KeptReport {
    pub rests: List<Rest>,
    pub lines: Bytes,
}

/// The report on a module, with what is known of the functions that it rests on. `Memory`: allocation failed, or a call has 2^32
/// arguments or more.
pub fn keep_report(
    alloc: Global,
    source: &Checked,
    known: &Summaries,
    lines: &Bytes,
) -> Result<KeptReport, Memory>
    requires closed { IsClosedOn (found known.now) (tree_of source.now) }
    requires report { AreLines (tree_of source.now).name (findings (found known.now) (tree_of source.now)) lines.now }
    ensures { IfOk result (IsKeptOf (tree_of source.now)) }
{
    let rests = rests_now(alloc, source, known)?;
    let lines = lines.copy(alloc)?;
    Ok(KeptReport { rests, lines })
}

// What is known of the functions that a module defines and of those that it calls.
fn rests_now(alloc: Global, source: &Checked, known: &Summaries) -> Result<List<Rest>, Memory>
    ensures { IfOk result (λ rests. rests ≡ rests_of (found known.now) (tree_of source.now)) }
{
    let module = source.module();
    let called = called_functions(alloc, source)?;
    let mut rests = List::new(alloc);
    note_own(
        alloc,
        &module.name,
        module.defs.as_slice(),
        known,
        &mut rests,
    )?;
    note_called(alloc, called.as_slice(), known, &mut rests)?;
    Ok(rests)
}

// Notes what is known of the functions of a module.
fn note_own(
    alloc: Global,
    home: &Atom,
    defs: &[Shared<FunDef>],
    known: &Summaries,
    rests: &mut List<Rest>,
) -> Result<(), Memory>
    ensures { OnOk result (rests.new ≡ rests.old ++ map (λ d. rest_of (found known.now) home.now d.name) defs.now) }
{
    for def in defs {
        rests.add(rest_now(alloc, home, &def.get().name, known)?)?;
    }
    Ok(())
}

// Notes what is known of called functions.
fn note_called(
    alloc: Global,
    called: &[OutsideCall],
    known: &Summaries,
    rests: &mut List<Rest>,
) -> Result<(), Memory>
    ensures { OnOk result (rests.new ≡ rests.old ++ map (λ c. rest_of (found known.now) c.0 c.1) called.now) }
{
    for call in called {
        rests.add(rest_now(alloc, &call.0, &call.1, known)?)?;
    }
    Ok(())
}

// What is known of a function.
fn rest_now(alloc: Global, home: &Atom, name: &FunName, known: &Summaries) -> Result<Rest, Memory>
    ensures { IfOk result (λ rest. rest ≡ rest_of (found known.now) home.now name.now) }
{
    let callee = known.find(home, name).copy(alloc)?;
    let home = home.copy(alloc)?;
    let name = name.copy(alloc)?;
    Ok(Rest { home, name, callee })
}

/// Whether the same is known of all functions that a report rests on. Takes no memory.
pub fn stands(kept: &KeptReport, known: &Summaries) -> bool
    ensures { IsTrue result → All (IsStill (found known.now)) kept.now.rests }
{
    let rests = kept.rests.as_slice();
    for rest in rests {
        if !is_still(rest, known) {
            return false;
        }
    }
    true
}

// Whether the same is known of a function.
fn is_still(rest: &Rest, known: &Summaries) -> bool
    ensures { IsTrue result → IsStill (found known.now) rest.now }
{
    rest.callee == *known.find(&rest.home, &rest.name)
}

/// Drops what was kept of a module.
pub fn discard_kept(_kept: Option<KeptReport>) {}
