//! The steps of a case, whose shelf holds nothing when it begins:
//!
//! - `file NAME` puts the lines below onto the shelf;
//! - `typings NAMES` gives the typings of all functions of the modules that these files spell, which one worker solves together;
//! - `typings-by-2 NAMES` does by two workers; in both what stands behind a word `then` is solved over what is known of what stands
//!   before it;
//! - `body BODY` gives the typing of a function of one parameter, `X`, with this body;
//! - `alike NAMES` solves these files' modules on one thread without a board, and says whether 1, 2 and 64 workers give the same; and
//!   what each gives for the names below, each of which is a module and a function of one parameter;
//! - `opening NAME TYPE` gives the solution of the constraints of this file's functions below a type that their parameter begins with;
//! - `lines` says of each line below, with its end, whether it is read as a typing that has it as its line;
//! - `line` says so of the lines below together, the last of them without its end.
use crate::alike::alike;
use crate::lines::{each_line, line};
use crate::openings::openings;
use crate::solved::typings;
use case_files::{CaseStep, steps_of};
use da_shelf::MemShelf;
use std::alloc::Global;
use std::sync::Wait;
use std::thread::Threads;
use type_kinds::{Bytes, List, Memory};

/// Plays the cases of these texts, and appends a line with the name of each and what its steps give.
pub fn play_texts<R: Threads + Wait + Sync>(
    rt: &R,
    alloc: Global,
    texts: &[String],
    out: &mut Bytes,
) -> Result<(), Memory> {
    for text in texts {
        play_text(rt, alloc, text.as_str(), out)?;
    }
    Ok(())
}

fn play_text<R: Threads + Wait + Sync>(
    rt: &R,
    alloc: Global,
    text: &str,
    out: &mut Bytes,
) -> Result<(), Memory> {
    let steps = steps_of(alloc, text)?;
    let mut shelf = empty_shelf(alloc);
    for step in steps.as_slice() {
        play(rt, alloc, step, &mut shelf, out)?;
    }
    Ok(())
}

fn empty_shelf(alloc: Global) -> MemShelf {
    MemShelf::new(alloc, List::new(alloc), List::new(alloc))
}

fn play<R: Threads + Wait + Sync>(
    rt: &R,
    alloc: Global,
    step: &CaseStep,
    shelf: &mut MemShelf,
    out: &mut Bytes,
) -> Result<(), Memory> {
    match step.what {
        "case" => {
            *shelf = empty_shelf(alloc);
            append_name(step.rest, out)
        }
        "file" => shelf.put(step.rest, step.lines.as_bytes()),
        "typings" => typings(rt, alloc, step.rest, 1, shelf, out),
        "typings-by-2" => typings(rt, alloc, step.rest, 2, shelf, out),
        "body" => body(rt, alloc, step.rest, shelf, out),
        "alike" => alike(rt, alloc, step.rest, step.lines, shelf, out),
        "opening" => openings(alloc, step.rest, shelf, out),
        "lines" => each_line(alloc, step.lines, out),
        "line" => line(alloc, step.lines.as_bytes(), out),
        _ => out.append(b"no such step\n"),
    }
}

fn append_name(name: &str, out: &mut Bytes) -> Result<(), Memory> {
    out.append(b"== ")?;
    out.append(name.as_bytes())?;
    out.append(b"\n")
}

// The typing of a function with this body.
fn body<R: Threads + Wait + Sync>(
    rt: &R,
    alloc: Global,
    body: &str,
    shelf: &mut MemShelf,
    out: &mut Bytes,
) -> Result<(), Memory> {
    put_body(alloc, body, shelf)?;
    typings(rt, alloc, "m.core", 1, shelf, out)
}

fn put_body(alloc: Global, body: &str, shelf: &mut MemShelf) -> Result<(), Memory> {
    let mut text = List::new(alloc);
    text.append(b"module 'm' ['f'/1] attributes [] 'f'/1 = fun (X) -> ")?;
    text.append(body.as_bytes())?;
    text.append(b" end")?;
    shelf.put("m.core", text.as_slice())
}
