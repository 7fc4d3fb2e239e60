//! The steps that do one thing with each of several texts.
use crate::faults::append_place;
use crate::reading::{append_checked, append_printed, append_read, append_tree};
use crate::tokens::{append_fit, append_sorts, append_tokens};
use case_files::CaseStep;
use core_scan::end_place;
use hex::decode;
use std::alloc::Global;
use type_kinds::{Bytes, List, Memory};

/// What stands before a text and behind it.
#[derive(Clone, Copy)]
pub struct TextFrame<'a> {
    front: &'a str,
    back: &'a str,
}

/// What stands before the first `...` and behind it; nothing, where there is none.
pub fn frame_of(lines: &str) -> TextFrame<'_> {
    match lines.split_once("...") {
        Some((front, back)) => TextFrame { front, back },
        None => TextFrame {
            front: "",
            back: "",
        },
    }
}

/// Appends what a step gives of each of its texts.
pub fn play_rows(
    alloc: Global,
    step: &CaseStep,
    frame: TextFrame,
    out: &mut Bytes,
) -> Result<(), Memory> {
    if step.rest == "together" {
        return row(alloc, step.what, frame, step.lines.as_bytes(), out);
    }
    for line in step.lines.lines() {
        if line.is_empty() {
            continue;
        }
        if step.rest == "hex" {
            hex_row(alloc, step.what, frame, line, out)?;
        } else {
            row(alloc, step.what, frame, line.as_bytes(), out)?;
        }
    }
    Ok(())
}

fn hex_row(
    alloc: Global,
    what: &str,
    frame: TextFrame,
    digits: &str,
    out: &mut Bytes,
) -> Result<(), Memory> {
    match decode(alloc, digits.as_bytes()) {
        Ok(bytes) => row(alloc, what, frame, bytes.as_slice(), out),
        Err(_) => Err(Memory),
    }
}

fn row(
    alloc: Global,
    what: &str,
    frame: TextFrame,
    bytes: &[u8],
    out: &mut Bytes,
) -> Result<(), Memory> {
    let mut text = List::new(alloc);
    let answer = match add_text(frame, bytes, &mut text) {
        Ok(()) => append_answer(alloc, what, text.as_slice(), frame.front.len(), out),
        Err(Memory) => Err(Memory),
    };
    drop(text);
    answer?;
    out.append(b"\n")
}

fn add_text(frame: TextFrame, bytes: &[u8], text: &mut Bytes) -> Result<(), Memory> {
    text.append(frame.front.as_bytes())?;
    text.append(bytes)?;
    text.append(frame.back.as_bytes())
}

// What is shown of a text begins at `from`.
fn append_answer(
    alloc: Global,
    what: &str,
    text: &[u8],
    from: usize,
    out: &mut Bytes,
) -> Result<(), Memory> {
    if text.len() > 10000 {
        return Err(Memory);
    }
    match what {
        "tokens" => append_tokens(alloc, text, out),
        "sorts" => append_sorts(alloc, text, out),
        "fit" => append_fit(alloc, text, out),
        "end" => append_place(end_place(text), out),
        "tree" => append_tree(alloc, text, from, out),
        "print" => append_printed(alloc, text, out),
        "read" => append_read(alloc, text, from, out),
        "check" => append_checked(alloc, text, from, out),
        _ => out.append(b"no such step"),
    }
}
