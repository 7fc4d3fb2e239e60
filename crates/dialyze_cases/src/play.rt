//! The steps of a case, whose shelf holds nothing when it begins:
//!
//! - `file NAME` puts the lines below onto the shelf;
//! - `cut NAME` does too, without the end of the last of them;
//! - `padded NAME COUNT` puts the lines below, and as many `%` behind them as make it so many bytes;
//! - `bytes NAME` puts the bytes that stand below in hexadecimal digits;
//! - `complement NAME PLACE` complements the byte at this place, from 0 on, of what is held;
//! - `front NAME COPY COUNT` puts the first so many bytes of what is held under a second name;
//! - `run WORDS` carries out the command that the words are, and gives its answer and what it wrote, with `..` behind a line that doesn't end;
//! - `count WORDS` does too, and gives how many components were solved;
//! - `run-failing PIECE WRITE WORDS` does what `run` does over an output that takes at most PIECE bytes at a time and fails at this write;
//! - `typer WORDS` prints the typings of the files that the words name, and gives its answer and what it wrote, as `run` does;
//! - `typer-failing PIECE WRITE WORDS` does so over an output as that of `run-failing`;
//! - `fun-flow WORDS` and `fun-flow-failing PIECE WRITE WORDS` list what the applications of values in the files that the words name
//!   may enter, in the same way;
//! - `verify WORDS` and `verify-failing PIECE WRITE WORDS` make a certificate or check a table, as the words say, in the same way;
//! - `session WORDS` and `session-failing PIECE WRITE WORDS` carry out the script that the words name, in the same way;
//! - `failing READ REPLACE` empties the shelf, of which this read and this replace are to fail; the number 0 is for none;
//! - `held NAME` gives the bytes that the shelf holds under the name, 32 a line, in hexadecimal digits;
//! - `same NAME NAME` says whether the shelf holds the same bytes under both.
use crate::held::{
    append_held, append_same, complement, put_bytes, put_front, put_lines, put_padded,
};
use crate::programs::CaseProgram;
use crate::runs::{run, run_counted, run_failing};
use case_files::{CaseStep, steps_of};
use da_shelf::MemShelf;
use std::alloc::Global;
use std::sync::Wait;
use std::thread::Threads;
use type_kinds::{Bytes, List, Memory};

/// Plays the cases of these texts, and appends a line with the name of each and what its steps give.
pub fn play_texts<R: Threads + Wait + Sync>(
    rt: &R,
    alloc: Global,
    texts: &[String],
    out: &mut Bytes,
) -> Result<(), Memory> {
    for text in texts {
        play_text(rt, alloc, text.as_str(), out)?;
    }
    Ok(())
}

fn play_text<R: Threads + Wait + Sync>(
    rt: &R,
    alloc: Global,
    text: &str,
    out: &mut Bytes,
) -> Result<(), Memory> {
    let steps = steps_of(alloc, text)?;
    let mut shelf = MemShelf::new(alloc, List::new(alloc), List::new(alloc));
    for step in steps.as_slice() {
        play(rt, alloc, step, &mut shelf, out)?;
    }
    Ok(())
}

fn play<R: Threads + Wait + Sync>(
    rt: &R,
    alloc: Global,
    step: &CaseStep,
    shelf: &mut MemShelf,
    out: &mut Bytes,
) -> Result<(), Memory> {
    if step.what == "count" {
        return run_counted(rt, alloc, step.rest, shelf, out);
    }
    if let Some(program) = program_of(step.what) {
        return run(rt, alloc, program, step.rest, shelf, out);
    }
    match failing_program_of(step.what) {
        Some(program) => run_failing(rt, alloc, program, step.rest, shelf, out),
        None => play_on_shelf(alloc, step, shelf, out),
    }
}

// The program that a step runs.
fn program_of(what: &str) -> Option<CaseProgram> {
    match what {
        "run" => Some(CaseProgram::Dialyze),
        "typer" => Some(CaseProgram::Typer),
        "fun-flow" => Some(CaseProgram::FunFlow),
        "verify" => Some(CaseProgram::TableVerify),
        "session" => Some(CaseProgram::DiaSession),
        _ => None,
    }
}

// The program that a step runs over an output that fails.
fn failing_program_of(what: &str) -> Option<CaseProgram> {
    match what {
        "run-failing" => Some(CaseProgram::Dialyze),
        "typer-failing" => Some(CaseProgram::Typer),
        "fun-flow-failing" => Some(CaseProgram::FunFlow),
        "verify-failing" => Some(CaseProgram::TableVerify),
        "session-failing" => Some(CaseProgram::DiaSession),
        _ => None,
    }
}

// A step that runs nothing.
fn play_on_shelf(
    alloc: Global,
    step: &CaseStep,
    shelf: &mut MemShelf,
    out: &mut Bytes,
) -> Result<(), Memory> {
    match step.what {
        "case" => {
            *shelf = MemShelf::new(alloc, List::new(alloc), List::new(alloc));
            append_name(step.rest, out)
        }
        "file" => put_lines(alloc, step.rest, step.lines, shelf),
        "cut" => shelf.put(step.rest, step.lines.as_bytes()),
        "bytes" => put_bytes(alloc, step.rest, step.lines, shelf),
        "padded" => put_padded(alloc, step.rest, step.lines, shelf),
        "complement" => complement(alloc, step.rest, shelf),
        "front" => put_front(alloc, step.rest, shelf),
        "failing" => fail_at(alloc, step.rest, shelf),
        "held" => append_held(alloc, step.rest, shelf, out),
        "same" => append_same(step.rest, shelf, out),
        _ => out.append(b"no such step\n"),
    }
}

fn append_name(name: &str, out: &mut Bytes) -> Result<(), Memory> {
    out.append(b"== ")?;
    out.append(name.as_bytes())?;
    out.append(b"\n")
}

// Makes the shelf an empty one that fails at a read and at a replace.
fn fail_at(alloc: Global, line: &str, shelf: &mut MemShelf) -> Result<(), Memory> {
    let (read, replace) = match line.split_once(' ') {
        Some(numbers) => numbers,
        None => (line, ""),
    };
    let reads = List::from_slice(alloc, &[number(read)])?;
    let replaces = List::from_slice(alloc, &[number(replace)])?;
    *shelf = MemShelf::new(alloc, reads, replaces);
    Ok(())
}

/// The number that a text spells, or 0.
pub fn number(text: &str) -> u32 {
    match text.parse::<u32>() {
        Ok(number) => number,
        Err(_) => 0,
    }
}
