//! The steps of a case:
//!
//! - `narrow` has a part (`parts`) and environments (`environments`), one on each line: it gives what the part makes of each;
//! - `solve` has constraints (`constraints`), a line `below` and environments: it gives the greatest solution of all constraints below each,
//!   and below one that has `counted` before it the one that is found with a count of turns;
//! - `visits SLOTS LEAST MOST TYPE` has constraints, and solves them for slots that may have any value: it gives how many slots have the type
//!   then, and whether at least the least number and less than the most parts were narrowed;
//! - `rows` has the number of arguments and the name of built-in functions: it gives the row of each, its part for slot 7 of the slots 4, 2
//!   and 9, and the quiet one; `other-row` gives them of a row that is in no table;
//! - `callees` sets and finds what is known of functions (`callees`).
use crate::built_ins::{append_other, append_row};
use crate::callees::append_callees;
use crate::narrowed::append_narrowed;
use crate::solved::{append_solved, append_visits};
use case_files::{CaseStep, steps_of};
use std::alloc::Global;
use type_kinds::{Bytes, Memory};

/// Plays the cases of these texts, and appends a line with the name of each and what its steps give.
pub fn play_texts(alloc: Global, texts: &[String], out: &mut Bytes) -> Result<(), Memory> {
    for text in texts {
        play_text(alloc, text.as_str(), out)?;
    }
    Ok(())
}

fn play_text(alloc: Global, text: &str, out: &mut Bytes) -> Result<(), Memory> {
    let steps = steps_of(alloc, text)?;
    let answer = play_steps(alloc, steps.as_slice(), out);
    drop(steps);
    answer
}

fn play_steps(alloc: Global, steps: &[CaseStep], out: &mut Bytes) -> Result<(), Memory> {
    for step in steps {
        play(alloc, step, out)?;
    }
    Ok(())
}

fn play(alloc: Global, step: &CaseStep, out: &mut Bytes) -> Result<(), Memory> {
    let lines = step.lines;
    match step.what {
        "case" => append_case(step.rest, out),
        "narrow" => append_narrowed(alloc, lines, out),
        "solve" => append_solved(alloc, lines, out),
        "visits" => append_visits(alloc, step.rest, lines, out),
        "rows" => append_rows(alloc, lines, out),
        "other-row" => append_other(alloc, out),
        "callees" => append_callees(alloc, lines, out),
        _ => out.append(b"no such step\n"),
    }
}

fn append_case(name: &str, out: &mut Bytes) -> Result<(), Memory> {
    out.append(b"== ")?;
    out.append(name.as_bytes())?;
    out.append(b"\n")
}

fn append_rows(alloc: Global, lines: &str, out: &mut Bytes) -> Result<(), Memory> {
    for line in lines.lines() {
        append_row(alloc, line, out)?;
    }
    Ok(())
}
