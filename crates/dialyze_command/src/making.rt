//! Generated modules are put onto the shelf, and then analysed.
ghost use Rattle.std.specs.Prelude.{◌≡◌, ◌≤◌, ◌<◌, length, IfOk, OnErr};
ghost use Rattle.std.specs.List.{concat};
ghost use Rattle.std.specs.String.{string_bytes};
ghost use Rattle.core_make.specs.Modules.{generated};
ghost use Rattle.table_keep.specs.Model.{sources_so, trees};
ghost use Rattle.analysis_answers.specs.ReadFiles.{HaveOwnNames};
ghost use Rattle.dialyze_command.specs.Making.{file_name, line_count, summary_line, IsSummary, PutsFirst};
ghost use Rattle.dialyze_command.specs.Words.{most_modules};
ghost use Rattle.dialyze_command.specs.steps.Puts.{IsCounted, IsMadeAs, IsPut, IsPutOne};

use crate::answer::{Answer, reported};
use crate::status::Status;
use analysis::{Analysis, Fault, analyse};
use analysis_answers::replace_fault_line;
use analysis_sources::{Device, ReadFault, discard_sources, sources_of, spelled_module_is_read};
use core_make::make;
use core_make_laws::generated_is_accepted;
use da_shelf::{Gate, Shelf, ShelfFault};
use std::alloc::Global;
use std::sync::Wait;
use std::thread::Threads;
use table_file::Table;
use table_keep::Source;
use type_kinds::{Bytes, List, Memory};

/// Puts so many generated modules onto the shelf, and gives what is to be answered then. Where there is no memory left, the first of
/// them are held.
pub fn made<R: Threads + Wait + Sync, F: Shelf, G: Gate + Sync>(
    rt: &R,
    alloc: Global,
    count: u32,
    shelf: &mut F,
    gate: &G,
) -> Result<Answer, Memory>
    requires least { 1 ≤ count }
    requires most { count ≤ most_modules }
    ensures made { IfOk result (λ a. IsMadeAs count (F.held shelf.old) (F.held shelf.new) (F.replace_faults shelf.old) (F.replace_faults shelf.new) a) }
    ensures memory { OnErr result (PutsFirst count (F.held shelf.old) (F.held shelf.new)) }
    ensures reads { F.read_faults shelf.new ≡ F.read_faults shelf.old }
    ensures no_read { F.reads shelf.new ≡ F.reads shelf.old }
{
    let texts = make(alloc, count)?;
    match put_all(alloc, count, texts.as_slice(), shelf) {
        Ok(None) => summed(rt, alloc, count, texts.as_slice(), gate),
        Ok(Some(answer)) => Ok(answer),
        Err(Memory) => Err(Memory),
    }
}

// Puts texts onto the shelf, one after another, each as the file of its number, and gives what is to be answered where the shelf
// doesn't take one.
fn put_all<F: Shelf>(
    alloc: Global,
    count: u32,
    texts: &[Bytes],
    shelf: &mut F,
) -> Result<Option<Answer>, Memory>
    requires { texts.now ≡ generated count }
    ensures put { IfOk result (λ found. IsPut count (F.held shelf.old) (F.held shelf.new) (F.replace_faults shelf.old) (F.replace_faults shelf.new) found) }
    ensures memory { OnErr result (PutsFirst count (F.held shelf.old) (F.held shelf.new)) }
    ensures reads { F.read_faults shelf.new ≡ F.read_faults shelf.old }
    ensures no_read { F.reads shelf.new ≡ F.reads shelf.old }
{
    for number in 0..count {
        let text = texts[number as usize].as_slice();
        match put_one(alloc, number, text, shelf) {
            Ok(None) => {}
            Ok(Some(answer)) => return Ok(Some(answer)),
            Err(Memory) => return Err(Memory),
        }
    }
    Ok(None)
}

// Puts one text onto the shelf, as the file of this number.
fn put_one<F: Shelf>(
    alloc: Global,
    number: u32,
    text: &[u8],
    shelf: &mut F,
) -> Result<Option<Answer>, Memory>
    ensures put { IfOk result (λ found. IsPutOne number text.now (F.held shelf.old) (F.held shelf.new) (F.replace_faults shelf.old)
        (F.replace_faults shelf.new) found) }
    ensures memory { OnErr result (F.held shelf.new ≡ F.held shelf.old) }
    ensures reads { F.read_faults shelf.new ≡ F.read_faults shelf.old }
    ensures no_read { F.reads shelf.new ≡ F.reads shelf.old }
    ensures counted { F.replace_faults shelf.old ≤ F.replace_faults shelf.new }
{
    let name = name_of(alloc, number)?;
    let line = replace_fault_line(alloc, name.as_str())?;
    match shelf.replace(name.as_str(), text) {
        Ok(()) => Ok(None),
        Err(ShelfFault::Failed) => Ok(Some(Answer {
            status: Status::DeviceFault(Device::Replace(number)),
            output: line,
        })),
        Err(ShelfFault::Memory) => Err(Memory),
        Err(ShelfFault::Missing) => unreachable!(),
    }
}

// The name of the file of the module of this number.
fn name_of(alloc: Global, number: u32) -> Result<String, Memory>
    ensures { IfOk result (λ name. string_bytes name ≡ file_name number) }
{
    match format!(in alloc; "g{number}.core") {
        Ok(name) => Ok(name),
        Err(_) => Err(Memory),
    }
}

// What is to be answered of texts that were put onto the shelf.
fn summed<R: Threads + Wait + Sync, G: Gate + Sync>(
    rt: &R,
    alloc: Global,
    count: u32,
    texts: &[Bytes],
    gate: &G,
) -> Result<Answer, Memory>
    requires most { count ≤ most_modules }
    requires texts { texts.now ≡ generated count }
    ensures { IfOk result (λ a. IsSummary count a.status a.output) }
{
    generated_is_accepted();
    spelled_module_is_read();
    match sources_of(alloc, texts) {
        Ok(sources) => {
            let answer = judge(rt, alloc, sources.as_slice(), gate);
            discard_sources(sources);
            answer
        }
        // each text is that of an accepted module, and no shelf is read
        Err(ReadFault::Refused(_, _)) => unreachable!(),
        Err(ReadFault::Failed(_)) => unreachable!(),
        Err(ReadFault::Memory) => Err(Memory),
    }
}

// What is to be answered of the sources that generated texts are, whose modules have names of their own.
fn judge<R: Threads + Wait + Sync, G: Gate + Sync>(
    rt: &R,
    alloc: Global,
    sources: &[Source],
    gate: &G,
) -> Result<Answer, Memory>
    requires few { length sources.now ≤ most_modules }
    requires names { HaveOwnNames (trees (sources_so sources.now)) }
    ensures { IfOk result (λ a. IsCounted (sources_so sources.now) a.status a.output) }
{
    let table = Table::empty(alloc);
    match analyse(rt, alloc, sources, &table, 1, gate) {
        Ok(analysis) => summary(alloc, sources.len() as u32, &analysis),
        Err(Fault::Set(_)) => unreachable!(),
        Err(Fault::Memory) => Err(Memory),
    }
}

// The answer to an analysis of so many modules: how many functions they have, and how many lines the reports on them.
fn summary(alloc: Global, modules: u32, analysis: &Analysis) -> Result<Answer, Memory>
    ensures status { IfOk result (λ a. a.status ≡ Status.Warnings) }
    ensures output { IfOk result (λ a. a.output ≡ summary_line modules analysis.now.functions (line_count (concat analysis.now.reports))) }
{
    let lines = lines_of(alloc, analysis.reports.as_slice())?;
    let mut output: Bytes = List::new(alloc);
    output.append(b"modules ")?;
    output.append_decimal(modules)?;
    output.append(b" functions ")?;
    output.append_decimal(analysis.functions)?;
    output.append(b" lines ")?;
    output.append_decimal(lines)?;
    output.append(b"\n")?;
    let status = Status::Warnings;
    Ok(Answer { status, output })
}

// How many lines reports have.
fn lines_of(alloc: Global, reports: &[Bytes]) -> Result<usize, Memory>
    ensures { IfOk result (λ lines. lines ≡ line_count (concat reports.now)) }
{
    let report = reported(alloc, reports)?;
    Ok(feeds_in(report.output.as_slice()))
}

// How many line feeds there are.
fn feeds_in(bytes: &[u8]) -> usize
    ensures { result ≡ line_count bytes.now }
{
    bytes.iter().filter(|byte| **byte == b'\n').count()
}
