//! Which integers a set can list, and sets of bit strings.
use case_files::words_of;
use std::alloc::Global;
use type_kinds::{Bytes, List, Memory};
use type_kinds_sets::{Bits, IntSet};

/// Appends whether a set can list some integers, and how many of them a set can hold.
pub fn append_listed(alloc: Global, line: &str, out: &mut Bytes) -> Result<(), Memory> {
    let words = words_of(alloc, line)?;
    let mut integers = List::new(alloc);
    let answer = add_integers(words.as_slice(), &mut integers);
    drop(words);
    answer?;
    append_can(integers.as_slice(), out)
}

fn add_integers(words: &[&str], integers: &mut List<i128>) -> Result<(), Memory> {
    for word in words {
        match word.parse::<i128>() {
            Ok(n) => integers.add(n)?,
            Err(_) => return Err(Memory),
        }
    }
    Ok(())
}

fn append_can(integers: &[i128], out: &mut Bytes) -> Result<(), Memory> {
    out.append(if IntSet::can_list(integers) {
        b"a list"
    } else {
        b"no list"
    })?;
    for n in integers {
        if !IntSet::can_hold(*n) {
            out.append(b", can't hold ")?;
            out.append_decimal(*n)?;
        }
    }
    Ok(())
}

/// Appends whether the first of two sets of bit strings is part of the second, their meet and their join.
pub fn append_bits(line: &str, out: &mut Bytes) -> Result<(), Memory> {
    let (s, t) = match line.split_once(" ; ") {
        Some((s, t)) => (bits(s), bits(t)),
        None => (Bits::No, Bits::No),
    };
    out.append(if s.leq(&t) {
        b"below, meet "
    } else {
        b"not below, meet "
    })?;
    out.append(name(s.meet(&t)))?;
    out.append(b", join ")?;
    out.append(name(s.join(&t)))
}

fn bits(name: &str) -> Bits {
    match name {
        "whole" => Bits::Whole,
        "any" => Bits::Any,
        _ => Bits::No,
    }
}

fn name(bits: Bits) -> &'static [u8] {
    match bits {
        Bits::No => b"no",
        Bits::Whole => b"whole",
        Bits::Any => b"any",
    }
}
