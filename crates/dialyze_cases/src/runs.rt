//! Runs of the programs on a shelf in memory.
use crate::answers::append_number;
use crate::play::number;
use crate::programs::CaseProgram;
use case_files::words_of;
use da_shelf::{Gate, MemShelf, MemSink, OpenGate};
use std::alloc::Global;
use std::sync::Wait;
use std::thread::Threads;
use type_kinds::{Bytes, List, Memory};
use worker_crew_tests::CountingGate;

// How much is written at a time, and in all.
const MOST_WRITTEN: u32 = 4096;

/// Runs a program on the words of a line, and appends its answer and what it wrote.
pub fn run<R: Threads + Wait + Sync>(
    rt: &R,
    alloc: Global,
    program: CaseProgram,
    line: &str,
    shelf: &mut MemShelf,
    out: &mut Bytes,
) -> Result<(), Memory> {
    let mut sink = MemSink::new(alloc, MOST_WRITTEN, MOST_WRITTEN, List::new(alloc))?;
    run_over(rt, alloc, program, line, shelf, &mut sink, &OpenGate, out)
}

/// The same of `dialyze`, and how many components were solved.
pub fn run_counted<R: Threads + Wait + Sync>(
    rt: &R,
    alloc: Global,
    line: &str,
    shelf: &mut MemShelf,
    out: &mut Bytes,
) -> Result<(), Memory> {
    let gate = CountingGate::new();
    let mut sink = MemSink::new(alloc, MOST_WRITTEN, MOST_WRITTEN, List::new(alloc))?;
    let program = CaseProgram::Dialyze;
    run_over(rt, alloc, program, line, shelf, &mut sink, &gate, out)?;
    append_number(b"-- components: ", gate.entries(), out)
}

/// The same as `run`, where the line begins with how many bytes are written at a time and with the write that fails.
pub fn run_failing<R: Threads + Wait + Sync>(
    rt: &R,
    alloc: Global,
    program: CaseProgram,
    line: &str,
    shelf: &mut MemShelf,
    out: &mut Bytes,
) -> Result<(), Memory> {
    let Some((mut sink, words)) = failing_sink(alloc, line)? else {
        return out.append(b"no write\n");
    };
    run_over(rt, alloc, program, words, shelf, &mut sink, &OpenGate, out)
}

// The output that takes so many bytes at a time and fails at this write, and the words behind these numbers.
fn failing_sink(alloc: Global, line: &str) -> Result<Option<(MemSink, &str)>, Memory> {
    let Some((piece, rest)) = line.split_once(' ') else {
        return Ok(None);
    };
    let Some((write, words)) = rest.split_once(' ') else {
        return Ok(None);
    };
    let failing = List::from_slice(alloc, &[number(write)])?;
    let sink = MemSink::new(alloc, number(piece).max(1), MOST_WRITTEN, failing)?;
    Ok(Some((sink, words)))
}

fn run_over<R: Threads + Wait + Sync, G: Gate + Sync>(
    rt: &R,
    alloc: Global,
    program: CaseProgram,
    line: &str,
    shelf: &mut MemShelf,
    sink: &mut MemSink,
    gate: &G,
    out: &mut Bytes,
) -> Result<(), Memory> {
    let words = words_of(alloc, line)?;
    program.run(rt, alloc, words.as_slice(), shelf, sink, gate, out)?;
    append_written(sink, out)
}

// Appends what was written, with `..` behind a line that doesn't end.
fn append_written(sink: &MemSink, out: &mut Bytes) -> Result<(), Memory> {
    out.append(sink.bytes())?;
    if !sink.bytes().ends_with(b"\n") && !sink.bytes().is_empty() {
        out.append(b"..\n")?;
    }
    Ok(())
}
