//! The reports on the modules of a wave that are kept: those that still stand, and those that are kept anew.
ghost use Rattle.std.specs.Prelude.{◌≡◌, length, slice_get, true, IfOk, IfSome};
ghost use Rattle.core_scope.specs.Checked.{tree_of};
ghost use Rattle.cons_tree.specs.Callees.{found};
ghost use Rattle.table_keep.specs.Groups.{has};
ghost use Rattle.table_keep.specs.Model.{source_so, sources_so};
ghost use Rattle.analysis.specs.Keeping.{AreKeptOf, IsClosedOn, IsKeptAt, IsKeptOf};
ghost use Rattle.analysis.specs.steps.Reporting.{AreClosed, AreKept, AreReportsAt, IsReportOn};

use crate::kept::{KeptReport, discard_kept, keep_report, stands};
use cons_tree::Summaries;
use core_scope::Names;
use module_flow_frame::findings_rest_on_calls;
use std::alloc::Global;
use table_keep::Source;
use type_kinds::{Atom, Bytes, List, Memory};

/// The reports on modules of these names that are kept and still stand, each at its module's position. `Memory` if allocation fails.
pub fn standing_lines(
    alloc: Global,
    sources: &[Source],
    todo: &Names<Atom>,
    kept: &List<Option<KeptReport>>,
    known: &Summaries,
) -> Result<List<Option<Bytes>>, Memory>
    requires closed { AreClosed (found known.now) todo.now (sources_so sources.now) }
    requires kept { AreKeptOf (sources_so sources.now) kept.now }
    ensures counted { IfOk result (λ lines. length lines ≡ length sources.now) }
    ensures kept { IfOk result (λ lines. AreKept (found known.now) (sources_so sources.now) lines) }
{
    let mut lines = List::new(alloc);
    for (at, source) in sources.iter().enumerate() {
        let one = standing_at(alloc, source, at, todo, kept, known)?;
        lines.add(one)?;
    }
    Ok(lines)
}

// The report that is kept at this position, if it still stands and its module has one of these names.
fn standing_at(
    alloc: Global,
    source: &Source,
    at: usize,
    todo: &Names<Atom>,
    kept: &List<Option<KeptReport>>,
    known: &Summaries,
) -> Result<Option<Bytes>, Memory>
    requires closed { has todo.now (tree_of source.now.checked).name ≡ true → IsClosedOn (found known.now) (tree_of source.now.checked) }
    requires kept { IsKeptAt (tree_of source.now.checked) (slice_get kept.now at) }
    ensures { IfOk result (λ lines. IfSome lines (λ text. IsReportOn (found known.now) (source_so source.now) text)) }
{
    if !todo.has(&source.checked.module().name) {
        return Ok(None);
    }
    if at >= kept.len() {
        return Ok(None);
    }
    match kept.at(at) {
        Some(report) => lines_now(alloc, source, report, known),
        None => Ok(None),
    }
}

// The lines of a report that is kept, if it still stands.
fn lines_now(
    alloc: Global,
    source: &Source,
    report: &KeptReport,
    known: &Summaries,
) -> Result<Option<Bytes>, Memory>
    requires closed { IsClosedOn (found known.now) (tree_of source.now.checked) }
    requires kept { IsKeptOf (tree_of source.now.checked) report.now }
    ensures { IfOk result (λ lines. IfSome lines (λ text. IsReportOn (found known.now) (source_so source.now) text)) }
{
    findings_rest_on_calls();
    if !stands(report, known) {
        return Ok(None);
    }
    let lines = report.lines.copy(alloc)?;
    Ok(Some(lines))
}

/// Keeps the reports on the modules at these positions that have one of these names, where there are positions for them. `Memory`:
/// allocation failed, or a call has 2^32 arguments or more.
pub fn keep_reports(
    alloc: Global,
    sources: &[Source],
    todo: &Names<Atom>,
    wanted: &[usize],
    known: &Summaries,
    lines: &List<Bytes>,
    kept: &mut List<Option<KeptReport>>,
) -> Result<(), Memory>
    requires closed { AreClosed (found known.now) todo.now (sources_so sources.now) }
    requires reported { AreReportsAt (found known.now) todo.now (sources_so sources.now) lines.now }
    requires kept { AreKeptOf (sources_so sources.now) kept.old }
    ensures places { length kept.new ≡ length kept.old }
    ensures kept { AreKeptOf (sources_so sources.now) kept.new }
{
    for at in wanted {
        keep_at(alloc, sources, todo, *at, known, lines, kept)?;
    }
    Ok(())
}

// Keeps the report on the module at this position, if it has one of these names.
fn keep_at(
    alloc: Global,
    sources: &[Source],
    todo: &Names<Atom>,
    at: usize,
    known: &Summaries,
    lines: &List<Bytes>,
    kept: &mut List<Option<KeptReport>>,
) -> Result<(), Memory>
    requires closed { AreClosed (found known.now) todo.now (sources_so sources.now) }
    requires reported { AreReportsAt (found known.now) todo.now (sources_so sources.now) lines.now }
    requires kept { AreKeptOf (sources_so sources.now) kept.old }
    ensures places { length kept.new ≡ length kept.old }
    ensures kept { AreKeptOf (sources_so sources.now) kept.new }
{
    if at >= sources.len() || at >= kept.len() {
        return Ok(());
    }
    let source = &sources[at];
    if at >= lines.len() || !todo.has(&source.checked.module().name) {
        return Ok(());
    }
    let report = keep_report(alloc, &source.checked, known, lines.at(at))?;
    discard_kept(kept.replace(at, Some(report)));
    Ok(())
}
