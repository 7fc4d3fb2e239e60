//! What the shelf holds.
use crate::play::number;
use da_shelf::MemShelf;
use hex::{decode, encode};
use std::alloc::Global;
use type_kinds::{Bytes, List, Memory};

// How many bytes are written in a line.
const BYTES_IN_LINE: usize = 32;

/// Puts a file of these lines, of which the last has no end yet.
pub fn put_lines(
    alloc: Global,
    name: &str,
    lines: &str,
    shelf: &mut MemShelf,
) -> Result<(), Memory> {
    let mut bytes = List::from_slice(alloc, lines.as_bytes())?;
    bytes.append(b"\n")?;
    shelf.put(name, bytes.as_slice())
}

/// Puts the bytes that lines of hexadecimal digits spell.
pub fn put_bytes(
    alloc: Global,
    name: &str,
    lines: &str,
    shelf: &mut MemShelf,
) -> Result<(), Memory> {
    let mut bytes = List::new(alloc);
    for line in lines.lines() {
        append_spelled(alloc, line, &mut bytes)?;
    }
    shelf.put(name, bytes.as_slice())
}

fn append_spelled(alloc: Global, line: &str, bytes: &mut Bytes) -> Result<(), Memory> {
    match decode(alloc, line.as_bytes()) {
        Ok(spelled) => bytes.append(spelled.as_slice()),
        Err(_) => Err(Memory),
    }
}

/// Puts a file of these lines and as many `%` behind them as make it so many bytes. The line has the name, and then the number.
pub fn put_padded(
    alloc: Global,
    line: &str,
    lines: &str,
    shelf: &mut MemShelf,
) -> Result<(), Memory> {
    let Some((name, count)) = line.split_once(' ') else {
        return Err(Memory);
    };
    let mut bytes = List::from_slice(alloc, lines.as_bytes())?;
    bytes.append(b"\n")?;
    for _ in bytes.len()..number(count) as usize {
        bytes.add(b'%')?;
    }
    shelf.put(name, bytes.as_slice())
}

/// Complements a byte of what is held. The line has the name, and then the place of the byte.
pub fn complement(alloc: Global, line: &str, shelf: &mut MemShelf) -> Result<(), Memory> {
    let Some((name, place)) = line.split_once(' ') else {
        return Err(Memory);
    };
    let mut bytes = List::new(alloc);
    if let Some(held) = shelf.look(name) {
        append_complemented(held, number(place) as usize, &mut bytes)?;
    }
    shelf.put(name, bytes.as_slice())
}

fn append_complemented(held: &[u8], at: usize, bytes: &mut Bytes) -> Result<(), Memory> {
    for (place, byte) in held.iter().enumerate() {
        bytes.add(if place == at { !*byte } else { *byte })?;
    }
    Ok(())
}

/// Puts the first bytes of what is held under a second name. The line has both names, and then how many bytes.
pub fn put_front(alloc: Global, line: &str, shelf: &mut MemShelf) -> Result<(), Memory> {
    let Some((names, count)) = line.rsplit_once(' ') else {
        return Err(Memory);
    };
    let Some((name, copy)) = names.split_once(' ') else {
        return Err(Memory);
    };
    let mut bytes = List::new(alloc);
    if let Some(held) = shelf.look(name) {
        append_front(held, number(count) as usize, &mut bytes)?;
    }
    shelf.put(copy, bytes.as_slice())
}

fn append_front(held: &[u8], count: usize, bytes: &mut Bytes) -> Result<(), Memory> {
    for byte in held.iter().take(count) {
        bytes.add(*byte)?;
    }
    Ok(())
}

/// Appends the bytes that are held under a name.
pub fn append_held(
    alloc: Global,
    name: &str,
    shelf: &MemShelf,
    out: &mut Bytes,
) -> Result<(), Memory> {
    let Some(bytes) = shelf.look(name) else {
        return out.append(b"nothing\n");
    };
    for line in bytes.chunks(BYTES_IN_LINE) {
        append_digits(alloc, line, out)?;
    }
    Ok(())
}

fn append_digits(alloc: Global, bytes: &[u8], out: &mut Bytes) -> Result<(), Memory> {
    match encode(alloc, bytes) {
        Ok(digits) => out.append(digits.as_bytes())?,
        Err(_) => return Err(Memory),
    }
    out.append(b"\n")
}

/// Appends whether the same bytes are held under two names.
pub fn append_same(names: &str, shelf: &MemShelf, out: &mut Bytes) -> Result<(), Memory> {
    let Some((one, other)) = names.split_once(' ') else {
        return out.append(b"one name\n");
    };
    match (shelf.look(one), shelf.look(other)) {
        (Some(bytes), Some(others)) if bytes == others => out.append(b"the same\n"),
        _ => out.append(b"not the same\n"),
    }
}
