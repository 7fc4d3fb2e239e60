//! The rows of the table of built-in functions, and their parts.
use crate::parts::append_built_in;
use crate::texts::{atom, parted};
use bif_types::{ArgKind, Bif, Rule, lookup, part};
use cons_tree::Slot;
use std::alloc::Global;
use type_kinds::{Bytes, Memory};

// The slot of the value, and those of the arguments.
const VALUE: Slot = 7;

const SLOTS: [Slot; 3] = [4, 2, 9];

/// Appends the row of a number of arguments and a name, and its parts.
pub fn append_row(alloc: Global, line: &str, out: &mut Bytes) -> Result<(), Memory> {
    let (arity, name) = parted(line, " ");
    let Ok(arity) = arity.parse::<u32>() else {
        return out.append(b"no row\n");
    };
    let atom = atom(alloc, name)?;
    let found = lookup(&atom, arity);
    drop(atom);
    match found {
        Some(bif) => append_bif(alloc, bif, out),
        None => out.append(b"no row\n"),
    }
}

/// Appends a row that the table doesn't have, of two arguments though it has types for three, and its parts.
pub fn append_other(alloc: Global, out: &mut Bytes) -> Result<(), Memory> {
    let bif = Bif {
        args: [ArgKind::Pid, ArgKind::Natural, ArgKind::Map],
        arity: 2,
        rule: Rule::Never,
    };
    append_bif(alloc, bif, out)
}

// Appends a row, its part, and the quiet one.
fn append_bif(alloc: Global, bif: Bif, out: &mut Bytes) -> Result<(), Memory> {
    match format!(in alloc; "{bif:?}\n") {
        Ok(text) => out.append(text.as_bytes())?,
        Err(_) => return Err(Memory),
    }
    append_part(alloc, bif, false, out)?;
    append_part(alloc, bif, true, out)
}

fn append_part(alloc: Global, bif: Bif, quiet: bool, out: &mut Bytes) -> Result<(), Memory> {
    let count = (bif.arity as usize).min(3);
    let made = part(alloc, bif, VALUE, &SLOTS[..count], quiet)?;
    let answer = append_built_in(&made, out);
    drop(made);
    answer?;
    out.append(b"\n")
}
