//! What the calls on types answer, against which values are in them.
use crate::rows::add_types;
use crate::values::{add_value, add_values};
use std::alloc::Global;
use type_kinds::{Bytes, List, Memory};
use type_lattice::Ty;
use type_meaning::{Value, value_in};
use type_text::{TextFault, print, read};

/// Appends whether the value of the first text is in the type of the second.
pub fn append_membership(alloc: Global, line: &str, out: &mut Bytes) -> Result<(), Memory> {
    let (value, t) = match line.split_once(" ; ") {
        Some(texts) => texts,
        None => (line, ""),
    };
    let mut values = List::new(alloc);
    let answer = match add_value(alloc, value, &mut values) {
        Ok(()) => append_is_in(alloc, values.as_slice(), t, out),
        Err(Memory) => Err(Memory),
    };
    drop(values);
    answer
}

fn append_is_in(
    alloc: Global,
    values: &[Value],
    text: &str,
    out: &mut Bytes,
) -> Result<(), Memory> {
    let [value] = values else {
        return out.append(b"no value");
    };
    match read(alloc, text.as_bytes()) {
        Ok(t) => {
            let is_in = value_in(value, &t);
            drop(t);
            out.append(if is_in { b"is in it" } else { b"isn't in it" })
        }
        Err(TextFault::NotAType) => out.append(b"no type"),
        Err(TextFault::Memory) => Err(Memory),
    }
}

/// Appends how many types and values there are, a line for each, the values behind a line `values`, and a line for each pair of the types
/// of which a call doesn't agree with which of the values are in them.
pub fn append_agreement(alloc: Global, lines: &str, out: &mut Bytes) -> Result<(), Memory> {
    let (types, values) = match lines.split_once("\nvalues\n") {
        Some(parts) => parts,
        None => (lines, ""),
    };
    let mut all = List::new(alloc);
    let answer = match add_values(alloc, values, &mut all) {
        Ok(()) => append_against(alloc, types, all.as_slice(), out),
        Err(Memory) => Err(Memory),
    };
    drop(all);
    answer
}

fn append_against(
    alloc: Global,
    texts: &str,
    values: &[Value],
    out: &mut Bytes,
) -> Result<(), Memory> {
    let mut types = List::new(alloc);
    let answer = match add_types(alloc, texts, "\n", &mut types) {
        Ok(()) => append_pairs(alloc, types.as_slice(), values, out),
        Err(TextFault::NotAType) => out.append(b"no type\n"),
        Err(TextFault::Memory) => Err(Memory),
    };
    drop(types);
    answer
}

fn append_pairs(
    alloc: Global,
    types: &[Ty],
    values: &[Value],
    out: &mut Bytes,
) -> Result<(), Memory> {
    out.append_decimal(types.len())?;
    out.append(b" types, ")?;
    out.append_decimal(values.len())?;
    out.append(b" values\n")?;
    for s in types {
        append_with(alloc, s, types, values, out)?;
    }
    Ok(())
}

fn append_with(
    alloc: Global,
    s: &Ty,
    types: &[Ty],
    values: &[Value],
    out: &mut Bytes,
) -> Result<(), Memory> {
    for t in types {
        if !agree(alloc, s, t, values)? {
            append_apart(s, t, out)?;
        }
    }
    Ok(())
}

fn append_apart(s: &Ty, t: &Ty, out: &mut Bytes) -> Result<(), Memory> {
    print(s, out)?;
    out.append(b" ; ")?;
    print(t, out)?;
    out.append(b" don't agree\n")
}

// Whether what a pair of types answers agrees with which values are in them.
fn agree(alloc: Global, s: &Ty, t: &Ty, values: &[Value]) -> Result<bool, Memory> {
    let met = s.meet(alloc, t)?;
    let joined = s.join(alloc, t)?;
    let answer = are_ordered((s, t), &met, &joined) && all_fit((s, t), &met, &joined, values);
    drop(met);
    drop(joined);
    Ok(answer)
}

// The meet is below both types, these below the join, and the meet below the join.
fn are_ordered(types: (&Ty, &Ty), met: &Ty, joined: &Ty) -> bool {
    let (s, t) = types;
    let is_below = met.leq(s) && met.leq(t);
    let is_above = s.leq(joined) && t.leq(joined);
    is_below && is_above && met.leq(joined)
}

// No value is in the first type alone where the second includes it, and each is in the meet and the join as it is in the types.
fn all_fit(types: (&Ty, &Ty), met: &Ty, joined: &Ty, values: &[Value]) -> bool {
    let (s, t) = types;
    let is_below = s.leq(t);
    for v in values {
        if !fits(v, types, met, joined) || is_below && value_in(v, s) && !value_in(v, t) {
            return false;
        }
    }
    true
}

fn fits(v: &Value, types: (&Ty, &Ty), met: &Ty, joined: &Ty) -> bool {
    let (s, t) = types;
    let in_s = value_in(v, s);
    let in_t = value_in(v, t);
    value_in(v, met) == (in_s && in_t) && (!(in_s || in_t) || value_in(v, joined))
}
