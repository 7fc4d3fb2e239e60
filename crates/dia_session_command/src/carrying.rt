//! The lines of a script, carried out one after another.
ghost use Rattle.std.specs.Prelude.{◌≡◌, ◌≤◌, ◌<◌, ◌-◌, ◌^◌, [], ◌∷◌, false, length, map, Option, IfErr, IfOk, OnOk};
ghost use Rattle.da_shelf.specs.Told.{Files};
ghost use Rattle.dia_session_engine.specs.Held.{held_by, held_file};
ghost use Rattle.dia_session_command.specs.Script.{request_so};
ghost use Rattle.dia_session_command.specs.Script.Request.{to_replace};
ghost use Rattle.dia_session_command.specs.Session.{Asks, Drops, ReadsFile, Replaces};
ghost use Rattle.dia_session_command.specs.steps.Carrying.{IsCarried, IsCarriedOut, IsLineAnswer, LineFails, status_at};

use crate::lines::{asked_lines, not_there_line, ok_line};
use crate::script::ScriptLine;
use analysis::Fault;
use analysis_answers::{RunStatus, duplicate_line, read_fault_line, refusal_line, too_many_line};
use analysis_sources::{Device, ReadFault, TOO_LONG, discard_sources, read_sources};
use core_scope::SetFault;
use da_shelf::{Gate, Shelf, Sink, SinkFault, give};
use dia_session_engine::{Engine, PutFault, discard_engine};
use std::alloc::Global;
use std::sync::Wait;
use std::thread::Threads;
use table_keep::Source;
use type_kinds::{Bytes, List, Memory};

/// What a line of the script gives.
#[derive(Drop)]
pub struct LineAnswer {
    /// What is written of it.
    pub output: Bytes,
    /// Whether the shelf failed to read the file that it replaces, which ends the session.
    pub unread: bool,
}

/// Why a session ends before the last line.
#[derive(Clone, Copy, Debug, PartialEq, Eq)]
pub enum SessionFault {
    /// There is no memory left.
    Memory,
    /// The shelf failed to read the file that the line replaces.
    Unread,
    /// The sink failed.
    Unwritten,
}

// The answer of a line that doesn't end the session.
fn goes_on(output: Bytes) -> LineAnswer
    ensures { result ≡ record { output = output; unread = false } }
{
    LineAnswer {
        output,
        unread: false,
    }
}

/// Carries lines out one after another, where nothing is held at first, and writes what each gives before the next is carried out.
pub fn carry_out<R: Threads + Wait + Sync, F: Shelf, K: Sink, G: Gate + Sync>(
    rt: &R,
    alloc: Global,
    lines: &[ScriptLine<'_>],
    workers: u32,
    shelf: &mut F,
    out: &mut K,
    gate: &G,
) -> RunStatus
    requires least { 1 ≤ workers }
    requires most { workers ≤ 64 }
    requires few { length lines.now < 2 ^ 32 - 1 }
    ensures carried { IsCarried (F.held shelf.old) (map request_so lines.now) (F.read_faults shelf.old) (F.read_faults shelf.new)
        (K.faults out.old) (K.faults out.new) (K.written out.old) (K.written out.new) result }
    ensures held { F.held shelf.new ≡ F.held shelf.old }
{
    let mut engine = Engine::new(alloc);
    let status = carry_all(rt, alloc, lines, workers, &mut engine, shelf, out, gate);
    discard_engine(engine);
    status
}

// The same, with an engine that holds nothing.
fn carry_all<R: Threads + Wait + Sync, F: Shelf, K: Sink, G: Gate + Sync>(
    rt: &R,
    alloc: Global,
    lines: &[ScriptLine<'_>],
    workers: u32,
    engine: &mut Engine,
    shelf: &mut F,
    out: &mut K,
    gate: &G,
) -> RunStatus
    requires empty { engine.old ≡ [] }
    requires least { 1 ≤ workers }
    requires most { workers ≤ 64 }
    requires few { length lines.now < 2 ^ 32 - 1 }
    ensures carried { IsCarried (F.held shelf.old) (map request_so lines.now) (F.read_faults shelf.old) (F.read_faults shelf.new)
        (K.faults out.old) (K.faults out.new) (K.written out.old) (K.written out.new) result }
    ensures held { F.held shelf.new ≡ F.held shelf.old }
{
    for (at, line) in lines.iter().enumerate() {
        match carry_line(rt, alloc, line, workers, engine, shelf, out, gate) {
            Ok(()) => {}
            Err(fault) => return status_at(at as u32 + 1, fault),
        }
    }
    RunStatus::Done
}

// The status of a session that ends at the line of this number.
fn status_at(number: u32, fault: SessionFault) -> RunStatus
    ensures { result ≡ status_at number fault }
{
    match fault {
        SessionFault::Memory => RunStatus::Memory,
        SessionFault::Unread => RunStatus::DeviceFault(Device::Read(number)),
        SessionFault::Unwritten => RunStatus::DeviceFault(Device::Write),
    }
}

// Carries a line out, and writes what it gives.
fn carry_line<R: Threads + Wait + Sync, F: Shelf, K: Sink, G: Gate + Sync>(
    rt: &R,
    alloc: Global,
    line: &ScriptLine<'_>,
    workers: u32,
    engine: &mut Engine,
    shelf: &mut F,
    out: &mut K,
    gate: &G,
) -> Result<(), SessionFault>
    requires least { 1 ≤ workers }
    requires most { workers ≤ 64 }
    ensures ok { OnOk result (IsCarriedOut (F.held shelf.old) (held_by engine.old) (request_so line.now) (held_by engine.new)
        (K.written out.old) (K.written out.new)) }
    ensures fault { IfErr result (LineFails (F.held shelf.old) (held_by engine.old) (request_so line.now) (F.read_faults shelf.old) (F.read_faults shelf.new)
        (K.faults out.old) (K.faults out.new) (K.written out.old) (K.written out.new)) }
    ensures held { F.held shelf.new ≡ F.held shelf.old }
    ensures reads { F.read_faults shelf.old ≤ F.read_faults shelf.new }
    ensures writes { K.faults out.old ≤ K.faults out.new }
{
    let answer = match answer_to(rt, alloc, line, workers, engine, shelf, gate) {
        Ok(answer) => answer,
        Err(Memory) => return Err(SessionFault::Memory),
    };
    if let Err(SinkFault::Failed) = give(out, answer.output.as_slice()) {
        return Err(SessionFault::Unwritten);
    }
    if answer.unread {
        return Err(SessionFault::Unread);
    }
    Ok(())
}

// What a line gives.
fn answer_to<R: Threads + Wait + Sync, F: Shelf, G: Gate + Sync>(
    rt: &R,
    alloc: Global,
    line: &ScriptLine<'_>,
    workers: u32,
    engine: &mut Engine,
    shelf: &mut F,
    gate: &G,
) -> Result<LineAnswer, Memory>
    requires least { 1 ≤ workers }
    requires most { workers ≤ 64 }
    ensures gives { IfOk result (IsLineAnswer (F.held shelf.old) (held_by engine.old) (request_so line.now) (F.read_faults shelf.old) (F.read_faults shelf.new)
        (held_by engine.new)) }
    ensures held { F.held shelf.new ≡ F.held shelf.old }
    ensures counted { F.read_faults shelf.old ≤ F.read_faults shelf.new }
{
    match line {
        ScriptLine::Replace(file) => replace(alloc, file, engine, shelf),
        ScriptLine::Drop(file) => Ok(goes_on(drop_from(alloc, file, engine)?)),
        ScriptLine::Ask => Ok(goes_on(ask(rt, alloc, workers, engine, gate)?)),
    }
}

// A line that replaces a file: the file is read, and then held.
fn replace<F: Shelf>(
    alloc: Global,
    file: &str,
    engine: &mut Engine,
    shelf: &mut F,
) -> Result<LineAnswer, Memory>
    ensures gives { IfOk result (IsLineAnswer (F.held shelf.old) (held_by engine.old) (to_replace file.now) (F.read_faults shelf.old) (F.read_faults shelf.new)
        (held_by engine.new)) }
    ensures held { F.held shelf.new ≡ F.held shelf.old }
    ensures counted { F.read_faults shelf.old ≤ F.read_faults shelf.new }
{
    match read_sources(alloc, &[file], 0, shelf) {
        Ok(sources) => Ok(goes_on(put(alloc, file, only(sources), engine)?)),
        Err(ReadFault::Refused(_, fault)) => Ok(goes_on(refusal_line(alloc, file, fault)?)),
        Err(ReadFault::Failed(_)) => Ok(LineAnswer {
            output: read_fault_line(alloc, file)?,
            unread: true,
        }),
        Err(ReadFault::Memory) => Err(Memory),
    }
}

// The one source that was read.
fn only(sources: List<Source>) -> Source
    requires { length sources ≡ 1 }
    ensures { sources ≡ result ∷ [] }
{
    let mut sources = sources;
    match sources.pop() {
        Some(source) => {
            discard_sources(sources);
            source
        }
        None => unreachable!(),
    }
}

// A line that replaces a file that is read as this source.
fn put(alloc: Global, file: &str, source: Source, engine: &mut Engine) -> Result<Bytes, Memory>
    ensures { IfOk result (λ output. (told : Option Files) → ReadsFile told (held_file file.now source)
        → Replaces told (held_by engine.old) file.now output (held_by engine.new)) }
{
    match engine.put(file, source) {
        Ok(()) => ok_line(alloc),
        Err(PutFault::TooMany) => too_many_line(alloc),
        Err(PutFault::TooLong) => refusal_line(alloc, file, TOO_LONG),
        Err(PutFault::Memory) => Err(Memory),
    }
}

// A line that drops a file.
fn drop_from(alloc: Global, file: &str, engine: &mut Engine) -> Result<Bytes, Memory>
    ensures { IfOk result (λ output. Drops (held_by engine.old) file.now output (held_by engine.new)) }
{
    if engine.drop_file(file) {
        ok_line(alloc)
    } else {
        not_there_line(alloc, file)
    }
}

// A line that asks for reports.
fn ask<R: Threads + Wait + Sync, G: Gate + Sync>(
    rt: &R,
    alloc: Global,
    workers: u32,
    engine: &mut Engine,
    gate: &G,
) -> Result<Bytes, Memory>
    requires least { 1 ≤ workers }
    requires most { workers ≤ 64 }
    ensures { IfOk result (λ output. Asks (held_by engine.old) output (held_by engine.new)) }
{
    match engine.ask(rt, workers, gate) {
        Ok(reports) => asked_lines(alloc, reports.as_slice()),
        Err(Fault::Set(SetFault::DuplicateModule { first, second })) => {
            duplicate_line(alloc, engine.file_at(second), engine.file_at(first))
        }
        Err(Fault::Memory) => Err(Memory),
    }
}
