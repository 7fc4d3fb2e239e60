//! One type that two threads hold.
use crate::rows::{add_types, append_part, append_type};
use std::alloc::Global;
use std::thread;
use std::thread::Threads;
use type_kinds::{Bytes, List, Memory};
use type_lattice::Ty;
use type_text::TextFault;

/// Appends the meet of the types of two texts and the join of the first with itself, which two threads make, and the first type.
pub fn append_held<R: Threads>(
    rt: &R,
    alloc: Global,
    line: &str,
    out: &mut Bytes,
) -> Result<(), Memory> {
    let mut types = List::new(alloc);
    let answer = match add_types(alloc, line, " ; ", &mut types) {
        Ok(()) => append_two(rt, alloc, types.as_slice(), out),
        Err(TextFault::NotAType) => out.append(b"no type"),
        Err(TextFault::Memory) => Err(Memory),
    };
    drop(types);
    answer
}

fn append_two<R: Threads>(
    rt: &R,
    alloc: Global,
    types: &[Ty],
    out: &mut Bytes,
) -> Result<(), Memory> {
    let [s, t] = types else {
        return out.append(b"no two types");
    };
    let (met, joined) = held(rt, alloc, s, t);
    let first = append_type(met, out);
    let second = append_part(joined, out);
    let third = append_part(s.copy(), out);
    first?;
    second?;
    third
}

// A copy of the first type goes to a second thread, which meets it with the other and lets it go. This thread joins the type meanwhile.
fn held<R: Threads>(
    rt: &R,
    alloc: Global,
    s: &Ty,
    t: &Ty,
) -> (Result<Ty, Memory>, Result<Ty, Memory>) {
    let copy = s.copy();
    thread::join(rt, move || met_with(alloc, copy, t), || s.join(alloc, s))
}

fn met_with(alloc: Global, s: Result<Ty, Memory>, t: &Ty) -> Result<Ty, Memory> {
    let s = s?;
    let met = s.meet(alloc, t);
    drop(s);
    met
}
