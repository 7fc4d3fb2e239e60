//! The modules that a wave solves at once, and the reports on them.
ghost use Rattle.std.specs.Prelude.{◌≡◌, ℕ, ◌<◌, ◌≤◌, [], ◌∷◌, ◌++◌, true, false, length, map, slice_get, IfOk, IfSome, OnOk};
ghost use Rattle.core_scope.specs.Checked.{module_of, tree_of};
ghost use Rattle.core_scope.specs.Sets.{StandsEarlier};
ghost use Rattle.cons_tree.specs.Callees.{found};
ghost use Rattle.analysis_summaries.specs.Whole.{IsWholeOver};
ghost use Rattle.table_keep.specs.Groups.{has};
ghost use Rattle.table_keep.specs.Model.{picked, source_so, sources_so, trees};
ghost use Rattle.analysis.specs.steps.Deciding.{AreReported, IsReported};
ghost use Rattle.analysis.specs.Keeping.{AreKeptOf};
ghost use Rattle.analysis.specs.steps.Reporting.{AreClosed, AreKept, IsReportOn};

use crate::keeping::{keep_reports, standing_lines};
use crate::kept::KeptReport;
use crate::reporting::made_by_workers;
use crate::reports::report_on;
use analysis_crew::{CompMemo, solve_modules_with};
use cons_tree::Summaries;
use core_scope::{AsChecked, Checked, Names};
use da_shelf::Gate;
use sound_laws_outside::solved_is_known;
use std::alloc::Global;
use std::sync::Wait;
use std::thread::Threads;
use table_keep::Source;
use type_kinds::{Atom, Bytes, List, Memory};

/// One of the modules that are to be solved.
#[derive(Clone, Copy)]
pub struct Chosen<'a> {
    pub source: &'a Source,
}

impl AsChecked for Chosen<'_> {
    ghost stands_for = { λ chosen. chosen.source.now.checked };

    fn checked(&self) -> &Checked {
        &self.source.checked
    }
}

// The modules of these names, in their order.
fn all_chosen<'a>(
    alloc: Global,
    sources: &'a [Source],
    todo: &Names<Atom>,
) -> Result<List<Chosen<'a>>, Memory>
    ensures { IfOk result (λ list. map (λ c. source_so c.source.now) list ≡ picked (has todo.now) (sources_so sources.now)) }
{
    let mut list = List::new(alloc);
    for source in sources {
        add_chosen(source, todo, &mut list)?;
    }
    Ok(list)
}

// Adds a module, if it has one of these names.
fn add_chosen<'a>(
    source: &'a Source,
    todo: &Names<Atom>,
    list: &mut List<Chosen<'a>>,
) -> Result<(), Memory>
    ensures { OnOk result (map (λ c. source_so c.source.now) list.new
        ≡ map (λ c. source_so c.source.now) list.old ++ picked (has todo.now) (source_so source.now ∷ [])) }
{
    if todo.has(&source.checked.module().name) {
        list.add(Chosen { source })
    } else {
        Ok(())
    }
}

/// Solves the modules of these names by the workers, over what is known of all others, and reports on each. What a memo, if
/// there is one, has of their components isn't solved, and the memo is that of their components then. A report that is kept, and that
/// still stands, isn't made again; what is kept is that of these modules then, where there are positions for it. `Memory` if
/// allocation fails, or where they have 2^32 functions or more.
pub fn solve_wave<R: Threads + Wait + Sync, G: Gate + Sync>(
    rt: &R,
    alloc: Global,
    sources: &[Source],
    todo: &Names<Atom>,
    known: &mut Summaries,
    lines: &mut List<Bytes>,
    kept: &mut List<Option<KeptReport>>,
    memo: &mut Option<CompMemo>,
    workers: u32,
    gate: &G,
) -> Result<(), Memory>
    requires distinct { (j : ℕ) → j < length sources.now → StandsEarlier (map (λ s. (module_of s.checked).name) sources.now) j → ⊥ }
    requires counted { length lines.old ≡ length sources.now }
    requires kept { AreKeptOf (sources_so sources.now) kept.old }
    requires least { 1 ≤ workers }
    requires most { workers ≤ 64 }
    ensures known { OnOk result (IsWholeOver (found known.old) (trees (picked (has todo.now) (sources_so sources.now))) (found known.new)) }
    ensures lines { OnOk result (AreReported todo.now (sources_so sources.now) (found known.new) lines.old lines.new) }
    ensures places { length kept.new ≡ length kept.old }
    ensures kept { AreKeptOf (sources_so sources.now) kept.new }
{
    solved_is_known();
    let list = all_chosen(alloc, sources, todo)?;
    let solvers = if list.is_empty() { 1 } else { workers };
    solve_modules_with(rt, alloc, list.as_slice(), known, memo, solvers, gate)?;
    report_wave(rt, alloc, sources, todo, known, lines, kept, workers)
}

// Reports on the modules of these names: a report that is kept, and that still stands, isn't made again.
fn report_wave<R: Threads + Sync>(
    rt: &R,
    alloc: Global,
    sources: &[Source],
    todo: &Names<Atom>,
    known: &Summaries,
    lines: &mut List<Bytes>,
    kept: &mut List<Option<KeptReport>>,
    workers: u32,
) -> Result<(), Memory>
    requires counted { length lines.old ≡ length sources.now }
    requires closed { AreClosed (found known.now) todo.now (sources_so sources.now) }
    requires kept { AreKeptOf (sources_so sources.now) kept.old }
    ensures lines { OnOk result (AreReported todo.now (sources_so sources.now) (found known.now) lines.old lines.new) }
    ensures places { length kept.new ≡ length kept.old }
    ensures kept { AreKeptOf (sources_so sources.now) kept.new }
{
    let standing = standing_lines(alloc, sources, todo, kept, known)?;
    let wanted = positions(alloc, sources, todo, &standing)?;
    let workers = if wanted.is_empty() { 1 } else { workers };
    let made = made_by_workers(
        rt,
        alloc,
        sources,
        known,
        wanted.as_slice(),
        standing,
        workers,
    )?;
    report_on_all(alloc, sources, todo, known, made, lines)?;
    keep_reports(alloc, sources, todo, wanted.as_slice(), known, lines, kept)
}

// The positions of the modules of these names that have no report yet.
fn positions(
    alloc: Global,
    sources: &[Source],
    todo: &Names<Atom>,
    standing: &List<Option<Bytes>>,
) -> Result<List<usize>, Memory> {
    let mut wanted = List::new(alloc);
    for (at, source) in sources.iter().enumerate() {
        if todo.has(&source.checked.module().name) && !has_report(standing, at) {
            wanted.add(at)?;
        }
    }
    Ok(wanted)
}

// Whether there is a report at a position.
fn has_report(standing: &List<Option<Bytes>>, at: usize) -> bool {
    match standing.get(at) {
        Some(slot) => slot.is_some(),
        None => false,
    }
}

// The report on each module of these names, at its position: what a worker made, and where none did, what is made here.
fn report_on_all(
    alloc: Global,
    sources: &[Source],
    todo: &Names<Atom>,
    known: &Summaries,
    mut made: List<Option<Bytes>>,
    lines: &mut List<Bytes>,
) -> Result<(), Memory>
    requires counted { length lines.old ≡ length sources.now }
    requires places { length made ≡ length sources.now }
    requires made { AreKept (found known.now) (sources_so sources.now) made }
    ensures { OnOk result (AreReported todo.now (sources_so sources.now) (found known.now) lines.old lines.new) }
{
    for (at, source) in sources.iter().enumerate() {
        let was = made.replace(at, None);
        report_at(alloc, source, at, todo, known, was, lines)?;
    }
    Ok(())
}

// The report on the module at this position, if it has one of these names: what a worker made, or what is made here.
fn report_at(
    alloc: Global,
    source: &Source,
    at: usize,
    todo: &Names<Atom>,
    known: &Summaries,
    was: Option<Bytes>,
    lines: &mut List<Bytes>,
) -> Result<(), Memory>
    requires within { at < length lines.old }
    requires made { IfSome was (λ text. IsReportOn (found known.now) (source_so source.now) text) }
    ensures counted { OnOk result (length lines.new ≡ length lines.old) }
    ensures reported { OnOk result (has todo.now (tree_of source.now.checked).name ≡ true
        → IsReported (found known.now) (tree_of source.now.checked) (slice_get lines.new at)) }
    ensures stays { OnOk result (has todo.now (tree_of source.now.checked).name ≡ false → lines.new ≡ lines.old) }
    ensures others { OnOk result ((i : ℕ) → (i ≡ at → ⊥) → slice_get lines.new i ≡ slice_get lines.old i) }
{
    if todo.has(&source.checked.module().name) {
        let report = report_or(alloc, source, known, was)?;
        lines.replace(at, report);
    }
    Ok(())
}

// The report that a worker made, or else the one that is made here.
fn report_or(
    alloc: Global,
    source: &Source,
    known: &Summaries,
    was: Option<Bytes>,
) -> Result<Bytes, Memory>
    requires { IfSome was (λ text. IsReportOn (found known.now) (source_so source.now) text) }
    ensures { IfOk result (λ text. IsReportOn (found known.now) (source_so source.now) text) }
{
    match was {
        Some(report) => Ok(report),
        None => report_on(alloc, &source.checked, known),
    }
}
