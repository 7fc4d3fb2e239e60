//! The analysis of modules together with a table between runs, by any number of workers.
ghost use Rattle.std.specs.Prelude.{◌≡◌, ℕ, ◌<◌, ◌≤◌, ◌^◌, [], length, map, IfOk, IfErr, OnOk};
ghost use Rattle.core_scope.specs.Checked.{module_of, tree_of};
ghost use Rattle.core_scope.specs.Sets.{StandsEarlier};
ghost use Rattle.call_graph.specs.Calls.{functions_of};
ghost use Rattle.cons_tree.specs.Callees.{found};
ghost use Rattle.table_keep.specs.Model.{entries_so, sources_so};
ghost use Rattle.sound_laws_kept.specs.Solving.{IsWritten};
ghost use Rattle.analysis.specs.Keeping.{AreKeptOf};
ghost use Rattle.analysis.specs.Reports.{IsSetFault};
ghost use Rattle.analysis.specs.steps.Deciding.{AreDecided};

use crate::kept::KeptReport;
use crate::new_table::{new_entries, reports_of};
use crate::waves::{Decided, decide_all};
use analysis_crew::{CompMemo, discard_any, empty_memo};
use core_scope::{SetFault, check_set};
use da_shelf::Gate;
use std::alloc::Global;
use std::sync::Wait;
use std::thread::Threads;
use table_file::Table;
use table_keep::Source;
use type_kinds::{Bytes, List, Memory};

/// The analysis of modules: the report on each in the order passed, a line a finding, the new table, and how many
/// functions the modules define.
#[derive(Drop)]
pub struct Analysis {
    pub reports: List<Bytes>,
    pub table: Table,
    pub functions: u32,
}

/// Why modules aren't analysed.
#[derive(Clone, Copy, Debug, PartialEq, Eq)]
pub enum Fault {
    /// They can't be analysed together.
    Set(SetFault),
    /// Allocation failed, or there are 2^32 functions or more. This says nothing of the modules.
    Memory,
}

/// Analyses modules together, with the table of an earlier run: an entry is kept where the modules of its group and what
/// they use are unchanged, and its report is the one that it has. The functions of all other modules are solved component
/// by component, each after those that it calls, by `workers` workers, of which the caller is one; and then each of these
/// modules is reported on. The answer is a function of the modules and the table. Each component is solved between
/// `enter` and `leave` of the gate. The call may wait for workers.
///
/// `Set`: two modules have the same name.
pub fn analyse<R: Threads + Wait + Sync, G: Gate + Sync>(
    rt: &R,
    alloc: Global,
    sources: &[Source],
    table: &Table,
    workers: u32,
    gate: &G,
) -> Result<Analysis, Fault>
    requires few { length sources.now < 2 ^ 32 }
    requires least { 1 ≤ workers }
    requires most { workers ≤ 64 }
    ensures distinct { OnOk result ((j : ℕ) → j < length sources.now → StandsEarlier (map (λ s. (module_of s.checked).name) sources.now) j → ⊥) }
    ensures written { IfOk result (λ analysis. IsWritten (entries_so table.now) (sources_so sources.now) analysis.reports (entries_so analysis.table)) }
    ensures functions { IfOk result (λ analysis. analysis.functions ≡ length (functions_of (map (λ s. tree_of s.checked) sources.now))) }
    ensures set { IfErr result (IsSetFault (map (λ s. (module_of s.checked).name) sources.now)) }
{
    let mut memo = None;
    let mut kept = List::new(alloc);
    let analysis = analysis_with(
        rt, alloc, sources, table, &mut kept, &mut memo, workers, gate,
    );
    discard_any(memo);
    analysis
}

/// Analyses modules together as `analyse` with the empty table, where a component isn't solved whose output the memo has: that of
/// the same part from the same outputs of those that it calls. The answer is the same whatever the memo has. It comes with the
/// memo of the components of these modules. Behind a fault there is no memo any more.
///
/// `Set`: two modules have the same name.
pub fn analyse_with<R: Threads + Wait + Sync, G: Gate + Sync>(
    rt: &R,
    alloc: Global,
    sources: &[Source],
    memo: CompMemo,
    workers: u32,
    gate: &G,
) -> Result<(Analysis, CompMemo), Fault>
    requires few { length sources.now < 2 ^ 32 }
    requires least { 1 ≤ workers }
    requires most { workers ≤ 64 }
    ensures distinct { OnOk result ((j : ℕ) → j < length sources.now → StandsEarlier (map (λ s. (module_of s.checked).name) sources.now) j → ⊥) }
    ensures written { IfOk result (λ both. IsWritten [] (sources_so sources.now) both.0.reports (entries_so both.0.table)) }
    ensures functions { IfOk result (λ both. both.0.functions ≡ length (functions_of (map (λ s. tree_of s.checked) sources.now))) }
    ensures set { IfErr result (IsSetFault (map (λ s. (module_of s.checked).name) sources.now)) }
{
    let mut kept = List::new(alloc);
    analysis_again(rt, alloc, sources, &mut kept, memo, workers, gate)
}

/// Analyses modules together as `analyse_with`, where a report isn't made again that is kept at its module's position and still
/// stands: the same is known of all functions that it rests on. The answer is the same whatever is kept. The reports on these modules are
/// kept then, each at its module's position. Behind a fault some of what was kept may be kept anew.
///
/// `Set`: two modules have the same name.
pub fn analyse_again<R: Threads + Wait + Sync, G: Gate + Sync>(
    rt: &R,
    alloc: Global,
    sources: &[Source],
    kept: &mut List<Option<KeptReport>>,
    memo: CompMemo,
    workers: u32,
    gate: &G,
) -> Result<(Analysis, CompMemo), Fault>
    requires few { length sources.now < 2 ^ 32 }
    requires places { length kept.old ≤ length sources.now }
    requires kept { AreKeptOf (sources_so sources.now) kept.old }
    requires least { 1 ≤ workers }
    requires most { workers ≤ 64 }
    ensures distinct { OnOk result ((j : ℕ) → j < length sources.now → StandsEarlier (map (λ s. (module_of s.checked).name) sources.now) j → ⊥) }
    ensures written { IfOk result (λ both. IsWritten [] (sources_so sources.now) both.0.reports (entries_so both.0.table)) }
    ensures functions { IfOk result (λ both. both.0.functions ≡ length (functions_of (map (λ s. tree_of s.checked) sources.now))) }
    ensures set { IfErr result (IsSetFault (map (λ s. (module_of s.checked).name) sources.now)) }
    ensures places { length kept.new ≤ length sources.now }
    ensures kept { AreKeptOf (sources_so sources.now) kept.new }
{
    match add_places(sources, kept) {
        Ok(()) => analysis_again(rt, alloc, sources, kept, memo, workers, gate),
        Err(Memory) => {
            discard_any(Some(memo));
            Err(Fault::Memory)
        }
    }
}

// Adds positions for kept reports, up to one for each module.
fn add_places(sources: &[Source], kept: &mut List<Option<KeptReport>>) -> Result<(), Memory>
    requires places { length kept.old ≤ length sources.now }
    requires kept { AreKeptOf (sources_so sources.now) kept.old }
    ensures places { length kept.new ≤ length sources.now }
    ensures kept { AreKeptOf (sources_so sources.now) kept.new }
{
    while kept.len() < sources.len() {
        kept.add(None)?;
    }
    Ok(())
}

// Analyses modules together, with a memo and reports that are kept.
fn analysis_again<R: Threads + Wait + Sync, G: Gate + Sync>(
    rt: &R,
    alloc: Global,
    sources: &[Source],
    kept: &mut List<Option<KeptReport>>,
    memo: CompMemo,
    workers: u32,
    gate: &G,
) -> Result<(Analysis, CompMemo), Fault>
    requires few { length sources.now < 2 ^ 32 }
    requires kept { AreKeptOf (sources_so sources.now) kept.old }
    requires least { 1 ≤ workers }
    requires most { workers ≤ 64 }
    ensures distinct { OnOk result ((j : ℕ) → j < length sources.now → StandsEarlier (map (λ s. (module_of s.checked).name) sources.now) j → ⊥) }
    ensures written { IfOk result (λ both. IsWritten [] (sources_so sources.now) both.0.reports (entries_so both.0.table)) }
    ensures functions { IfOk result (λ both. both.0.functions ≡ length (functions_of (map (λ s. tree_of s.checked) sources.now))) }
    ensures set { IfErr result (IsSetFault (map (λ s. (module_of s.checked).name) sources.now)) }
    ensures places { length kept.new ≡ length kept.old }
    ensures kept { AreKeptOf (sources_so sources.now) kept.new }
{
    let table = Table::empty(alloc);
    let mut memo = Some(memo);
    match analysis_with(rt, alloc, sources, &table, kept, &mut memo, workers, gate) {
        Ok(analysis) => Ok((analysis, memo_in(alloc, memo))),
        Err(fault) => {
            discard_any(memo);
            Err(fault)
        }
    }
}

// The memo, and an empty one, if there is none.
fn memo_in(alloc: Global, memo: Option<CompMemo>) -> CompMemo {
    match memo {
        Some(memo) => memo,
        None => empty_memo(alloc),
    }
}

// Analyses modules together, with a table, with reports that are kept, and perhaps with a memo.
fn analysis_with<R: Threads + Wait + Sync, G: Gate + Sync>(
    rt: &R,
    alloc: Global,
    sources: &[Source],
    table: &Table,
    kept: &mut List<Option<KeptReport>>,
    memo: &mut Option<CompMemo>,
    workers: u32,
    gate: &G,
) -> Result<Analysis, Fault>
    requires few { length sources.now < 2 ^ 32 }
    requires kept { AreKeptOf (sources_so sources.now) kept.old }
    requires least { 1 ≤ workers }
    requires most { workers ≤ 64 }
    ensures places { length kept.new ≡ length kept.old }
    ensures kept { AreKeptOf (sources_so sources.now) kept.new }
    ensures distinct { OnOk result ((j : ℕ) → j < length sources.now → StandsEarlier (map (λ s. (module_of s.checked).name) sources.now) j → ⊥) }
    ensures written { IfOk result (λ analysis. IsWritten (entries_so table.now) (sources_so sources.now) analysis.reports (entries_so analysis.table)) }
    ensures functions { IfOk result (λ analysis. analysis.functions ≡ length (functions_of (map (λ s. tree_of s.checked) sources.now))) }
    ensures set { IfErr result (IsSetFault (map (λ s. (module_of s.checked).name) sources.now)) }
{
    if let Err(fault) = check_set(sources) {
        return Err(Fault::Set(fault));
    }
    match analysis_of(rt, alloc, sources, table, kept, memo, workers, gate) {
        Ok(analysis) => Ok(analysis),
        Err(Memory) => Err(Fault::Memory),
    }
}

// How many functions modules define. `Memory`: there are 2^32 or more.
fn functions_count(sources: &[Source]) -> Result<u32, Memory>
    ensures { IfOk result (λ count. count ≡ length (functions_of (map (λ s. tree_of s.checked) sources.now))) }
{
    let mut count: u32 = 0;
    for source in sources {
        let defs = source.checked.module().defs.len();
        if defs > (u32::MAX - count) as usize {
            return Err(Memory);
        }
        count += defs as u32;
    }
    Ok(count)
}

// The analysis of modules with distinct names.
fn analysis_of<R: Threads + Wait + Sync, G: Gate + Sync>(
    rt: &R,
    alloc: Global,
    sources: &[Source],
    table: &Table,
    kept: &mut List<Option<KeptReport>>,
    memo: &mut Option<CompMemo>,
    workers: u32,
    gate: &G,
) -> Result<Analysis, Memory>
    requires least { 1 ≤ workers }
    requires most { workers ≤ 64 }
    requires kept { AreKeptOf (sources_so sources.now) kept.old }
    requires distinct { (j : ℕ) → j < length sources.now → StandsEarlier (map (λ s. (module_of s.checked).name) sources.now) j → ⊥ }
    ensures places { length kept.new ≡ length kept.old }
    ensures kept { AreKeptOf (sources_so sources.now) kept.new }
    ensures written { IfOk result (λ analysis. IsWritten (entries_so table.now) (sources_so sources.now) analysis.reports (entries_so analysis.table)) }
    ensures functions { IfOk result (λ analysis. analysis.functions ≡ length (functions_of (map (λ s. tree_of s.checked) sources.now))) }
{
    let functions = functions_count(sources)?;
    let decided = decide_all(rt, alloc, sources, table, kept, memo, workers, gate)?;
    let written = write(alloc, sources, table, &decided);
    discard_decided(decided);
    let Written { reports, table } = written?;
    Ok(Analysis {
        reports,
        table,
        functions,
    })
}

// The reports on modules, and the new table.
#[derive(Drop)]
struct Written {
    reports: List<Bytes>,
    table: Table,
}

// What is written of modules by what is decided of all groups.
fn write(
    alloc: Global,
    sources: &[Source],
    table: &Table,
    decided: &Decided,
) -> Result<Written, Memory>
    requires distinct { (j : ℕ) → j < length sources.now → StandsEarlier (map (λ s. (module_of s.checked).name) sources.now) j → ⊥ }
    requires decided { AreDecided (entries_so table.now) (sources_so sources.now) (found decided.now.known) decided.now.changed decided.now.lines }
    ensures { IfOk result (λ written. IsWritten (entries_so table.now) (sources_so sources.now) written.reports (entries_so written.table)) }
{
    let entries = new_entries(alloc, sources, table, decided)?;
    let reports = reports_of(alloc, sources, &entries)?;
    let table = entries.into_table(alloc)?;
    Ok(Written { reports, table })
}

// Drops what was decided.
fn discard_decided(_decided: Decided) {}
