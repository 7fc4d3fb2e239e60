//! Lines that are read as typings.
use std::alloc::Global;
use type_kinds::{Bytes, List, Memory};
use typer_lines::{LineFault, read_line};

/// Appends of each of these lines, with its end, what `line` does. A line of no characters is left out.
pub fn each_line(alloc: Global, lines: &str, out: &mut Bytes) -> Result<(), Memory> {
    for row in lines.lines() {
        if !row.is_empty() {
            let mut text = List::from_slice(alloc, row.as_bytes())?;
            text.append(b"\n")?;
            line(alloc, text.as_slice(), out)?;
        }
    }
    Ok(())
}

/// Appends whether these bytes are read as a typing, and whether they are its line then.
pub fn line(alloc: Global, bytes: &[u8], out: &mut Bytes) -> Result<(), Memory> {
    let typing = match read_line(alloc, bytes) {
        Ok(typing) => typing,
        Err(LineFault::NotALine) => return out.append(b"no line of a typing\n"),
        Err(LineFault::Memory) => return Err(Memory),
    };
    let mut again = Bytes::new(alloc);
    let answer = typing.append_line(&mut again);
    drop(typing);
    answer?;
    out.append(if again.as_slice() == bytes {
        b"the line of a typing\n"
    } else {
        b"the line of another\n"
    })
}
