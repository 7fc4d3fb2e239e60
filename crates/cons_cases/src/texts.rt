//! Texts of numbers, types and names.
use std::alloc::Global;
use type_kinds::{Atom, Bytes, List, Memory};
use type_lattice::Ty;
use type_text::{TextFault, read};

/// What stands before the first such text, and behind it.
pub fn parted<'a>(text: &'a str, between: &str) -> (&'a str, &'a str) {
    match text.split_once(between) {
        Some(parts) => parts,
        None => (text, ""),
    }
}

/// The number that a text spells, or 0.
pub fn number(text: &str) -> u64 {
    match text.parse::<u64>() {
        Ok(number) => number,
        Err(_) => 0,
    }
}

/// The numbers that the words of a text spell.
pub fn numbers(alloc: Global, text: &str) -> Result<List<u64>, Memory> {
    let mut numbers = List::new(alloc);
    if !text.is_empty() {
        for word in text.split(' ') {
            numbers.add(number(word))?;
        }
    }
    Ok(numbers)
}

/// The types of a text, ` ; ` between two.
pub fn types_of(alloc: Global, text: &str) -> Result<List<Ty>, TextFault> {
    let mut types = List::new(alloc);
    match add_types(alloc, text, &mut types) {
        Ok(()) => Ok(types),
        Err(fault) => {
            drop(types);
            Err(fault)
        }
    }
}

fn add_types(alloc: Global, text: &str, types: &mut List<Ty>) -> Result<(), TextFault> {
    if !text.is_empty() {
        for one in text.split(" ; ") {
            let ty = read(alloc, one.as_bytes())?;
            types.add(ty)?;
        }
    }
    Ok(())
}

/// The atom of a name.
pub fn atom(alloc: Global, name: &str) -> Result<Atom, Memory> {
    let bytes = List::from_slice(alloc, name.as_bytes())?;
    Ok(Atom::from_bytes(bytes))
}

/// Appends that a text has what is the text of no type, or answers that memory lacks.
pub fn append_fault(fault: TextFault, out: &mut Bytes) -> Result<(), Memory> {
    match fault {
        TextFault::NotAType => out.append(b"no type\n"),
        TextFault::Memory => Err(Memory),
    }
}
