//! Sets of integers and of atoms.
use crate::rows::append_type;
use case_files::words_of;
use std::alloc::Global;
use type_kinds::{Atom, Bytes, List, Memory, Shared};
use type_kinds_sets::{AtomSet, IntSet};
use type_lattice::Ty;

/// Appends the join or the meet of two sets of integers as a type, or how they are ordered.
pub fn append_ints(what: &str, s: &IntSet, t: &IntSet, out: &mut Bytes) -> Result<(), Memory> {
    match what {
        "int-join" => append_type(Ok(Ty::ints(s.join(t))), out),
        "int-meet" => append_type(Ok(Ty::ints(s.meet(t))), out),
        _ => {
            let copy = s.copy();
            let is_copy = copy.leq(s) && s.leq(&copy);
            drop(copy);
            append_order([s.leq(t), t.leq(s), is_copy, s.is_none()], out)
        }
    }
}

// Whether a set is below another, whether it is above it, whether it is its copy, and whether it is empty.
fn append_order(answers: [bool; 4], out: &mut Bytes) -> Result<(), Memory> {
    let [below, above, is_copy, is_none] = answers;
    out.append(if below { b"below" } else { b"not below" })?;
    out.append(if above { b", above" } else { b", not above" })?;
    out.append(if is_copy {
        b", its copy"
    } else {
        b", not its copy"
    })?;
    out.append(if is_none { b", empty" } else { b", not empty" })
}

/// Appends what a step says of two sets of atoms, each `all` or the names of atoms. The second has none, where there is one set.
pub fn append_atoms(
    alloc: Global,
    what: &str,
    rest: &str,
    line: &str,
    out: &mut Bytes,
) -> Result<(), Memory> {
    let (first, second) = match line.split_once(" ; ") {
        Some(sets) => sets,
        None => (line, ""),
    };
    let s = atoms_of(alloc, first)?;
    let answer = append_with(alloc, what, rest, &s, second, out);
    drop(s);
    answer
}

fn append_with(
    alloc: Global,
    what: &str,
    rest: &str,
    s: &AtomSet,
    second: &str,
    out: &mut Bytes,
) -> Result<(), Memory> {
    let t = atoms_of(alloc, second)?;
    let answer = match what {
        "atom-join" => append_made(s.join(alloc, &t), out),
        "atom-meet" => append_made(s.meet(alloc, &t), out),
        "atom-order" => append_atom_order(s, &t, out),
        "atom-has" => append_has_atom(alloc, s, rest, out),
        _ => append_members(s, out),
    };
    drop(t);
    answer
}

// The atoms of these names, or all atoms.
fn atoms_of(alloc: Global, names: &str) -> Result<AtomSet, Memory> {
    if names == "all" {
        return Ok(AtomSet::all());
    }
    let names = words_of(alloc, names)?;
    let set = joined(alloc, names.as_slice());
    drop(names);
    set
}

fn joined(alloc: Global, names: &[&str]) -> Result<AtomSet, Memory> {
    let mut set = AtomSet::none();
    for name in names {
        set = with_name(alloc, &set, name)?;
    }
    Ok(set)
}

fn with_name(alloc: Global, set: &AtomSet, name: &str) -> Result<AtomSet, Memory> {
    let atom = atom(alloc, name)?;
    let one = AtomSet::one(alloc, &atom);
    drop(atom);
    let one = one?;
    let more = set.join(alloc, &one);
    drop(one);
    more
}

fn atom(alloc: Global, name: &str) -> Result<Atom, Memory> {
    let bytes = List::from_slice(alloc, name.as_bytes())?;
    Ok(Atom::from_bytes(bytes))
}

fn append_made(made: Result<AtomSet, Memory>, out: &mut Bytes) -> Result<(), Memory> {
    let set = made?;
    append_type(Ok(Ty::atoms(set)), out)
}

fn append_atom_order(s: &AtomSet, t: &AtomSet, out: &mut Bytes) -> Result<(), Memory> {
    let copy = s.copy()?;
    let is_copy = copy.leq(s) && s.leq(&copy);
    drop(copy);
    append_order([s.leq(t), t.leq(s), is_copy, s.is_none()], out)
}

// Whether an atom is in a set, and whether the set that lists it alone is part of it.
fn append_has_atom(
    alloc: Global,
    set: &AtomSet,
    name: &str,
    out: &mut Bytes,
) -> Result<(), Memory> {
    let atom = atom(alloc, name)?;
    let has = set.contains(&atom);
    let listed = listed_one(alloc, atom)?;
    let below = listed.leq(set);
    drop(listed);
    out.append(if has { b"is in it" } else { b"isn't in it" })?;
    out.append(if below {
        b", a part of it"
    } else {
        b", no part of it"
    })
}

fn listed_one(alloc: Global, atom: Atom) -> Result<AtomSet, Memory> {
    let shared = Shared::new(alloc, atom)?;
    let mut one = List::new(alloc);
    one.add(shared)?;
    if AtomSet::can_list(one.as_slice()) {
        AtomSet::listed(alloc, one)
    } else {
        Err(Memory)
    }
}

// The atoms that a set lists, and whether a set can be made of the list.
fn append_members(set: &AtomSet, out: &mut Bytes) -> Result<(), Memory> {
    let Some(members) = set.members() else {
        return out.append(b"no list");
    };
    out.append_decimal(members.len())?;
    out.append(b" listed:")?;
    for member in members {
        out.append(b" ")?;
        member.get().text(out)?;
    }
    out.append(if AtomSet::can_list(members) {
        b", a list"
    } else {
        b", no list"
    })
}
