//! The steps of a case. Each has lines, and gives a line for each that isn't empty; one without lines has the text of no characters.
//!
//! A line of most steps has the texts of types, ` ; ` between two, and is answered by a type or by words:
//!
//! - `read` gives the type itself; a line that is the text of no type is answered so, in every step;
//! - `join`, `meet` and `narrow` give the join and the meet of two types, and the first narrowed by the second and read back of its text;
//! - `order` says whether the first of two types is below the second, above it, and equal to it, and whether the first is its copy;
//! - `cons` gives the lists of a head and a tail whose ends are proper, and `free` those whose ends are free;
//! - `parts` gives a list, a head and a tail, each narrowed by the others;
//! - `head` and `tail` give those of lists, `tuple` the tuples of the types, `tuple-in-tuple` the tuples of these alone;
//! - `element SIZE POSITION` gives an element of the tuples of a size, `at POSITION` those at a position in tuples of any size, and `at` all
//!   elements of tuples; `cut LEVEL` gives the type of a level;
//! - `has NUMBER` says whether an integer is in the type; `any-has NUMBER` whether it is among all values;
//! - `int-join` and `int-meet` give the join and the meet of the integers of two types; `int-order` says whether those of the first are
//!   below those of the second, above them, the same as their copy, and none;
//! - `facts` calls what states the laws of the calls, and says whether the first of two types is equal to itself and to the other;
//! - `kind` has the name of a kind, and gives the type of all its values;
//! - `put` gives the bytes of the types, one behind another, in hexadecimal digits.
//!
//! A line of these has the names of atoms, or `all`, and ` ; ` before those of a second set, which else has none:
//!
//! - `atom-join`, `atom-meet` and `atom-order` are for sets of atoms what the same is for those of integers;
//! - `atom-has NAME` says whether an atom is in a set, and whether the set that lists it alone is part of the set;
//! - `atoms` gives the atoms that a set lists, and says whether a set can be made of the list.
//!
//! - `ints` says whether a set can hold each of some integers, and list them all; `bits` has two sets of bit strings, each `no`, `whole` or
//!   `any`, and says whether the first is part of the second, and their meet and their join.
//!
//! Of values (`values`):
//!
//! - `in` says whether a value is in a type, ` ; ` between;
//! - `agree` has a type on each line, a line `values`, and a value on each further line. It gives the pairs of types of which inclusion, the
//!   meet or the join doesn't agree with which of the values are in them;
//! - `held` gives the meet of two types, which a second thread makes of a copy of the first, the join of the first with itself, which this
//!   one makes meanwhile, and the first.
//!
//! A line of these has bytes in hexadecimal digits:
//!
//! - `take PLACE` gives the type that stands at this place, where it ends, and whether it is put as the bytes between, or says why none does;
//! - `cuts` says of which of the shorter beginnings another answer comes than that they are too short.
use crate::agreement::{append_agreement, append_membership};
use crate::bytes::{append_cuts, append_taken};
use crate::numbers::{append_bits, append_listed};
use crate::rows::{append_kind, append_row};
use crate::sets::append_atoms;
use crate::threads::append_held;
use case_files::{CaseStep, steps_of};
use hex::decode;
use std::alloc::Global;
use std::thread::Threads;
use type_kinds::{Bytes, List, Memory};

/// Plays the cases of these texts, and appends a line with the name of each and what its steps give.
pub fn play_texts<R: Threads>(
    rt: &R,
    alloc: Global,
    texts: &[String],
    out: &mut Bytes,
) -> Result<(), Memory> {
    for text in texts {
        play_text(rt, alloc, text.as_str(), out)?;
    }
    Ok(())
}

fn play_text<R: Threads>(rt: &R, alloc: Global, text: &str, out: &mut Bytes) -> Result<(), Memory> {
    let steps = steps_of(alloc, text)?;
    let answer = play_steps(rt, alloc, steps.as_slice(), out);
    drop(steps);
    answer
}

fn play_steps<R: Threads>(
    rt: &R,
    alloc: Global,
    steps: &[CaseStep],
    out: &mut Bytes,
) -> Result<(), Memory> {
    for step in steps {
        if step.what == "case" {
            out.append(b"== ")?;
            out.append(step.rest.as_bytes())?;
            out.append(b"\n")?;
        } else {
            play(rt, alloc, step, out)?;
        }
    }
    Ok(())
}

fn play<R: Threads>(rt: &R, alloc: Global, step: &CaseStep, out: &mut Bytes) -> Result<(), Memory> {
    if step.what == "agree" {
        return append_agreement(alloc, step.lines, out);
    }
    if step.lines.is_empty() {
        append_line(rt, alloc, step, "", out)?;
    }
    for line in step.lines.lines() {
        if !line.is_empty() {
            append_line(rt, alloc, step, line, out)?;
        }
    }
    Ok(())
}

fn append_line<R: Threads>(
    rt: &R,
    alloc: Global,
    step: &CaseStep,
    line: &str,
    out: &mut Bytes,
) -> Result<(), Memory> {
    match step.what {
        "take" | "cuts" => append_bytes(alloc, step, line, out)?,
        "ints" => append_listed(alloc, line, out)?,
        "bits" => append_bits(line, out)?,
        "kind" => append_kind(line, out)?,
        "in" => append_membership(alloc, line, out)?,
        "held" => append_held(rt, alloc, line, out)?,
        what if what.starts_with("atom") => append_atoms(alloc, what, step.rest, line, out)?,
        what => append_row(alloc, what, step.rest, line, out)?,
    }
    out.append(b"\n")
}

fn append_bytes(
    alloc: Global,
    step: &CaseStep,
    digits: &str,
    out: &mut Bytes,
) -> Result<(), Memory> {
    let Ok(bytes) = decode(alloc, digits.as_bytes()) else {
        return Err(Memory);
    };
    if step.what == "take" {
        append_taken(alloc, bytes.as_slice(), number(step.rest) as usize, out)
    } else {
        append_cuts(alloc, bytes.as_slice(), out)
    }
}

/// The number that a text spells, or 0.
pub fn number(text: &str) -> u32 {
    match text.parse::<u32>() {
        Ok(number) => number,
        Err(_) => 0,
    }
}
