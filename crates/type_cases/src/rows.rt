//! The steps over types.
use crate::bytes::append_put;
use crate::elements::{append_has, elements_at, project};
use crate::play::number;
use crate::sets::append_ints;
use std::alloc::Global;
use type_kinds::{Bytes, List, Memory};
use type_lattice::{Ends, Kind, Ty};
use type_lattice_tests::{
    are_equal, cons_of_its_parts, inclusion_is_transitive, join_is_above, meet_is_below, narrowed,
    narrowed_list, narrowing_is_monotone, read_back,
};
use type_text::{TextFault, print, read};

/// Appends what a step says of the types of a line.
pub fn append_row(
    alloc: Global,
    what: &str,
    rest: &str,
    line: &str,
    out: &mut Bytes,
) -> Result<(), Memory> {
    let mut types = List::new(alloc);
    let answer = match add_types(alloc, line, " ; ", &mut types) {
        Ok(()) => append_types(alloc, what, rest, types.as_slice(), out),
        Err(TextFault::NotAType) => out.append(b"no type"),
        Err(TextFault::Memory) => Err(Memory),
    };
    drop(types);
    answer
}

/// Adds the types of some texts.
pub fn add_types(
    alloc: Global,
    texts: &str,
    between: &str,
    types: &mut List<Ty>,
) -> Result<(), TextFault> {
    for text in texts.split(between) {
        let t = read(alloc, text.as_bytes())?;
        types.add(t)?;
    }
    Ok(())
}

fn append_types(
    alloc: Global,
    what: &str,
    rest: &str,
    types: &[Ty],
    out: &mut Bytes,
) -> Result<(), Memory> {
    match types {
        _ if what == "tuple" => append_type(Ty::tuple(alloc, types), out),
        _ if what == "put" => append_put(alloc, types, out),
        _ if what == "tuple-in-tuple" => append_type(tuple_in_tuple(alloc, types), out),
        [t] => append_of_one(alloc, what, rest, t, out),
        [s, t] => append_of_two(alloc, what, s, t, out),
        [list, head, tail] => append_parts(alloc, list, head, tail, out),
        _ => out.append(b"no such step"),
    }
}

fn append_of_one(
    alloc: Global,
    what: &str,
    rest: &str,
    t: &Ty,
    out: &mut Bytes,
) -> Result<(), Memory> {
    match what {
        "read" => print(t, out),
        "head" => append_type(t.elem(alloc), out),
        "tail" => append_type(t.tail(alloc), out),
        "cut" => append_type(cut(alloc, t, number(rest)), out),
        "element" => append_type(project(alloc, t, rest), out),
        "at" => append_type(elements_at(alloc, t, rest), out),
        "has" => append_has(t, rest, out),
        "any-has" => {
            let any = Ty::any();
            let answer = append_has(&any, rest, out);
            drop(any);
            answer
        }
        _ => out.append(b"no such step"),
    }
}

fn append_of_two(alloc: Global, what: &str, s: &Ty, t: &Ty, out: &mut Bytes) -> Result<(), Memory> {
    match what {
        "join" => append_type(s.join(alloc, t), out),
        "meet" => append_type(s.meet(alloc, t), out),
        "narrow" => append_read_back(alloc, narrowed(alloc, s, t), out),
        "cons" => append_type(Ty::cons(alloc, s, t, Ends::Proper), out),
        "free" => append_type(Ty::cons(alloc, s, t, Ends::Free), out),
        "order" => append_order(s, t, out),
        "int-join" | "int-meet" | "int-order" => {
            let left = s.integers();
            let right = t.integers();
            let answer = append_ints(what, &left, &right, out);
            drop(left);
            drop(right);
            answer
        }
        "facts" => append_facts(alloc, s, t, out),
        _ => out.append(b"no such step"),
    }
}

/// Appends the text of a type that was made.
pub fn append_type(made: Result<Ty, Memory>, out: &mut Bytes) -> Result<(), Memory> {
    let t = made?;
    let answer = print(&t, out);
    drop(t);
    answer
}

/// Appends the type of all values of a kind: of functions where it is no other.
pub fn append_kind(name: &str, out: &mut Bytes) -> Result<(), Memory> {
    let kind = match name {
        "float" => Kind::Float,
        "binary" => Kind::Binary,
        "bitstring" => Kind::Bitstring,
        "pid" => Kind::Pid,
        "port" => Kind::Port,
        "reference" => Kind::Reference,
        "map" => Kind::Map,
        "nil" => Kind::Nil,
        "tuple" => Kind::AnyTuple,
        "fun of 2" => Kind::FunOf(2),
        _ => Kind::AnyFun,
    };
    append_type(Ok(Ty::kind(kind)), out)
}

// Appends the text of a type that was made, as it is read back.
fn append_read_back(
    alloc: Global,
    made: Result<Ty, Memory>,
    out: &mut Bytes,
) -> Result<(), Memory> {
    let t = made?;
    let again = read_back(alloc, &t);
    drop(t);
    match again {
        Ok(again) => append_type(Ok(again), out),
        Err(_) => Err(Memory),
    }
}

// The type of a level; of level 4, where there is none of this level.
fn cut(alloc: Global, t: &Ty, level: u32) -> Result<Ty, Memory> {
    t.cut(alloc, level.min(4))
}

fn tuple_in_tuple(alloc: Global, types: &[Ty]) -> Result<Ty, Memory> {
    let inner = Ty::tuple(alloc, types)?;
    let mut parts = List::new(alloc);
    parts.add(inner)?;
    let outer = Ty::tuple(alloc, parts.as_slice());
    drop(parts);
    outer
}

fn append_order(s: &Ty, t: &Ty, out: &mut Bytes) -> Result<(), Memory> {
    out.append(if s.leq(t) { b"below" } else { b"not below" })?;
    out.append(if t.leq(s) { b", above" } else { b", not above" })?;
    out.append(if s == t { b", equal" } else { b", not equal" })?;
    let copy = s.copy()?;
    let is_copy = copy == *s;
    drop(copy);
    out.append(if is_copy {
        b", its copy"
    } else {
        b", not its copy"
    })
}

// The facts are proved of all types; the calls are tried.
fn append_facts(alloc: Global, s: &Ty, t: &Ty, out: &mut Bytes) -> Result<(), Memory> {
    meet_is_below(alloc, s, t)?;
    join_is_above(alloc, s, t)?;
    inclusion_is_transitive(t, t, s);
    narrowing_is_monotone();
    cons_of_its_parts();
    out.append(if are_equal(s, s) {
        b"equal to itself"
    } else {
        b"other than itself"
    })?;
    out.append(if are_equal(s, t) {
        b", equal"
    } else {
        b", not equal"
    })
}

fn append_parts(
    alloc: Global,
    list: &Ty,
    head: &Ty,
    tail: &Ty,
    out: &mut Bytes,
) -> Result<(), Memory> {
    let (list, head, tail) = narrowed_list(alloc, list, head, tail)?;
    let first = append_type(Ok(list), out);
    let second = append_part(Ok(head), out);
    let third = append_part(Ok(tail), out);
    first?;
    second?;
    third
}

/// Appends the text of a type that was made, behind another.
pub fn append_part(made: Result<Ty, Memory>, out: &mut Bytes) -> Result<(), Memory> {
    let answer = out.append(b" ; ");
    let part = append_type(made, out);
    answer?;
    part
}
