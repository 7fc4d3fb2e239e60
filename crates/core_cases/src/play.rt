//! The steps of a case:
//!
//! - `between` puts each text of the steps behind it between two others: those before and behind the `...` below;
//! - `tokens` gives the tokens of each text, or the first fault; `sorts` their sorts; `end` the place of the text's end;
//! - `fit` says of two tokens whether the second may stand where the first is wanted, and whether their sorts are one;
//! - `tree` gives the tree of each text, which is a module; places count from the first byte of what the step has;
//! - `print` gives the canonical text of each module, and whether it is read back as the same;
//! - `read` says whether each text is a module, and `check` whether it is accepted; or else the first fault, and the text with a `^` at
//!   its place;
//! - `changed` has a token and another on each line; the tokens are a module's. It gives for each token what `read` does of the text that
//!   ends before it, of that where it is removed, of that where it is doubled, and of that where the other stands in its place; and then of
//!   the whole text;
//! - `module` adds the module below to those of the case; `set` says whether these have distinct names, `calls` gives the components of
//!   their functions, and `outside` the calls of each function that go to none of them;
//! - `graph COUNT` gives the components of so many nodes with the pairs below; `chain COUNT` and `ring COUNT` give how many components a
//!   chain of so many nodes has, and how many with a pair from the last to the first.
//!
//! The texts of a step are the lines below, each by itself but for empty ones; with `together` behind the step's name they are one text, the
//! last line without its end, and with `hex` each line is hexadecimal digits.
use crate::calls::append_over;
use crate::graphs::{append_count, append_graph};
use crate::rows::{TextFrame, frame_of, play_rows};
use crate::token_changes::append_changed;
use case_files::{CaseStep, steps_of};
use std::alloc::Global;
use type_kinds::{Bytes, List, Memory};

/// Plays the cases of these texts, and appends a line with the name of each and what its steps give.
pub fn play_texts(alloc: Global, texts: &[String], out: &mut Bytes) -> Result<(), Memory> {
    for text in texts {
        play_text(alloc, text.as_str(), out)?;
    }
    Ok(())
}

fn play_text(alloc: Global, text: &str, out: &mut Bytes) -> Result<(), Memory> {
    let steps = steps_of(alloc, text)?;
    let mut texts = List::new(alloc);
    let answer = play_steps(alloc, steps.as_slice(), &mut texts, out);
    drop(texts);
    drop(steps);
    answer
}

// The texts of modules are those of the case.
fn play_steps(
    alloc: Global,
    steps: &[CaseStep],
    texts: &mut List<Bytes>,
    out: &mut Bytes,
) -> Result<(), Memory> {
    let mut frame = frame_of("");
    for step in steps {
        match step.what {
            "case" => {
                frame = frame_of("");
                texts.truncate(0);
                append_name(step.rest, out)?;
            }
            "between" => frame = frame_of(step.lines),
            "module" => texts.add(List::from_slice(alloc, step.lines.as_bytes())?)?,
            _ => play(alloc, step, frame, texts.as_slice(), out)?,
        }
    }
    Ok(())
}

fn append_name(name: &str, out: &mut Bytes) -> Result<(), Memory> {
    out.append(b"== ")?;
    out.append(name.as_bytes())?;
    out.append(b"\n")
}

fn play(
    alloc: Global,
    step: &CaseStep,
    frame: TextFrame,
    texts: &[Bytes],
    out: &mut Bytes,
) -> Result<(), Memory> {
    match step.what {
        "set" | "calls" | "outside" => append_over(alloc, step.what, texts, out),
        "graph" => append_graph(alloc, number(step.rest), step.lines, out),
        "chain" => append_count(alloc, number(step.rest), false, out),
        "ring" => append_count(alloc, number(step.rest), true, out),
        "changed" => append_changed(alloc, step.lines, out),
        _ => play_rows(alloc, step, frame, out),
    }
}

/// The number that a text spells, or 0.
pub fn number(text: &str) -> u32 {
    match text.parse::<u32>() {
        Ok(number) => number,
        Err(_) => 0,
    }
}
