//! Types as bytes.
use hex::encode;
use std::alloc::Global;
use type_bytes::{BytesFault, has_short_names, put, take};
use type_kinds::{Bytes, List, Memory};
use type_lattice::Ty;
use type_text::print;

/// Appends the bytes of types, one behind another, in hexadecimal digits.
pub fn append_put(alloc: Global, types: &[Ty], out: &mut Bytes) -> Result<(), Memory> {
    let mut bytes = List::new(alloc);
    let answer = match put_all(types, &mut bytes) {
        Ok(()) => append_digits(alloc, bytes.as_slice(), out),
        Err(Memory) => Err(Memory),
    };
    drop(bytes);
    answer
}

fn put_all(types: &[Ty], bytes: &mut Bytes) -> Result<(), Memory> {
    for t in types {
        if has_short_names(t) {
            put(t, bytes)?;
        }
    }
    Ok(())
}

fn append_digits(alloc: Global, bytes: &[u8], out: &mut Bytes) -> Result<(), Memory> {
    match encode(alloc, bytes) {
        Ok(digits) => out.append(digits.as_bytes()),
        Err(_) => Err(Memory),
    }
}

/// Appends the type that stands at a place, where it ends, and whether it is put as the bytes between, or why there is none.
pub fn append_taken(
    alloc: Global,
    bytes: &[u8],
    from: usize,
    out: &mut Bytes,
) -> Result<(), Memory> {
    if from > bytes.len() {
        return out.append(b"no such place");
    }
    match take(alloc, bytes, from) {
        Ok((t, end)) => {
            let answer = append_again(alloc, &t, &bytes[from..end], out);
            drop(t);
            answer
        }
        Err(BytesFault::Short) => out.append(b"too short"),
        Err(BytesFault::NotCanonical) => out.append(b"not canonical"),
        Err(BytesFault::Memory) => Err(Memory),
    }
}

// Appends a type and the number of its bytes, and whether it is put as them.
fn append_again(alloc: Global, t: &Ty, bytes: &[u8], out: &mut Bytes) -> Result<(), Memory> {
    print(t, out)?;
    out.append(b" ; bytes: ")?;
    out.append_decimal(bytes.len())?;
    if !has_short_names(t) {
        return out.append(b", a long name");
    }
    let mut again = List::new(alloc);
    let answer = put(t, &mut again);
    let is_same = again.as_slice() == bytes;
    drop(again);
    answer?;
    out.append(if is_same { b", the same" } else { b", others" })
}

/// Appends how many of the shorter beginnings of some bytes are answered otherwise than that they are too short.
pub fn append_cuts(alloc: Global, bytes: &[u8], out: &mut Bytes) -> Result<(), Memory> {
    out.append_decimal(bytes.len())?;
    out.append(b" beginnings are too short")?;
    for len in 0..bytes.len() {
        if !is_short(alloc, &bytes[..len]) {
            out.append(b", but not ")?;
            out.append_decimal(len)?;
        }
    }
    Ok(())
}

fn is_short(alloc: Global, bytes: &[u8]) -> bool {
    matches!(take(alloc, bytes, 0), Err(BytesFault::Short))
}
