//! The reports on the modules that a wave has solved, by workers: each takes the next module from a counter, and what it made is known
//! when it has ended.
ghost use Rattle.std.specs.Prelude.{◌≡◌, ◌<◌, All, IfOk, OnOk, length};
ghost use Rattle.cons_tree.specs.Callees.{found};
ghost use Rattle.table_keep.specs.Model.{sources_so};
ghost use Rattle.analysis.specs.steps.Reporting.{AreKept, IsMade};

use crate::reports::report_on;
use cons_tree::Summaries;
use std::alloc::Global;
use std::sync::atomic::{AtomicU64, Ordering};
use std::thread::{Threads, map_indices};
use table_keep::Source;
use type_kinds::{Bytes, List, Memory};

/// A report, with the position of its module.
#[derive(Drop)]
pub struct ModuleReport {
    at: usize,
    lines: Bytes,
}

// Reports on the module at a position.
fn made_at(
    alloc: Global,
    sources: &[Source],
    known: &Summaries,
    at: usize,
) -> Result<ModuleReport, Memory>
    requires { at < length sources.now }
    ensures { IfOk result (λ made. IsMade (found known.now) (sources_so sources.now) made) }
{
    let lines = report_on(alloc, &sources[at].checked, known)?;
    Ok(ModuleReport { at, lines })
}

// Adds the report on the module at a position, if there is one.
#[tactic(auto, using(crate::proofs::MadeReports::all_more))]
fn add_made(
    alloc: Global,
    sources: &[Source],
    known: &Summaries,
    at: usize,
    list: &mut List<ModuleReport>,
) -> Result<(), Memory>
    requires { All (IsMade (found known.now) (sources_so sources.now)) list.old }
    ensures { OnOk result (All (IsMade (found known.now) (sources_so sources.now)) list.new) }
{
    if at < sources.len() {
        list.add(made_at(alloc, sources, known, at)?)
    } else {
        Ok(())
    }
}

// What one worker makes: of the modules at these positions it takes the next until there is none.
fn work_off(
    alloc: Global,
    sources: &[Source],
    known: &Summaries,
    wanted: &[usize],
    next: &AtomicU64,
) -> Result<List<ModuleReport>, Memory>
    ensures { IfOk result (λ list. All (IsMade (found known.now) (sources_so sources.now)) list) }
{
    let mut list = List::new(alloc);
    for _ in 0..wanted.len() {
        let turn = next.fetch_add(1, Ordering::SeqCst) as usize;
        if turn >= wanted.len() {
            return Ok(list);
        }
        add_made(alloc, sources, known, wanted[turn], &mut list)?;
    }
    Ok(list)
}

// Drops a report.
fn discard(_lines: Option<Bytes>) {}

// Keeps what a worker made, each report at its module's position.
fn keep_all(
    sources: &[Source],
    known: &Summaries,
    kept: &mut List<Option<Bytes>>,
    mut list: List<ModuleReport>,
)
    requires counted { length kept.old ≡ length sources.now }
    requires before { AreKept (found known.now) (sources_so sources.now) kept.old }
    requires made { All (IsMade (found known.now) (sources_so sources.now)) list }
    ensures counted { length kept.new ≡ length sources.now }
    ensures kept { AreKept (found known.now) (sources_so sources.now) kept.new }
{
    while let Some(made) = list.pop() {
        let ModuleReport { at, lines } = made;
        discard(kept.replace(at, Some(lines)));
    }
}

/// These reports, and those that workers make on the modules at these positions, each at its module's position. `Memory` if allocation
/// fails.
pub fn made_by_workers<R: Threads + Sync>(
    rt: &R,
    alloc: Global,
    sources: &[Source],
    known: &Summaries,
    wanted: &[usize],
    standing: List<Option<Bytes>>,
    workers: u32,
) -> Result<List<Option<Bytes>>, Memory>
    requires counted { length standing ≡ length sources.now }
    requires kept { AreKept (found known.now) (sources_so sources.now) standing }
    ensures counted { IfOk result (λ kept. length kept ≡ length sources.now) }
    ensures kept { IfOk result (λ kept. AreKept (found known.now) (sources_so sources.now) kept) }
{
    let next = AtomicU64::new(0);
    let shared = &next;
    let lists = match map_indices(
        rt,
        alloc,
        workers as usize,
        &|_seat: usize| -> Result<List<ModuleReport>, Memory>
            ensures { IfOk result (λ list. All (IsMade (found known.entry.now) (sources_so sources.entry.now)) list) }
        { work_off(alloc, sources, known, wanted, shared) },
    ) {
        Ok(lists) => lists,
        Err(_) => return Err(Memory),
    };
    let mut kept = standing;
    for list in lists {
        keep_all(sources, known, &mut kept, list?);
    }
    Ok(kept)
}
