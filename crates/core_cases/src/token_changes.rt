//! Texts of a module in which one token is changed. Each token stands on a line of its own.
use crate::faults::append_refused;
use crate::reading::module_of;
use core_ast::discard_module;
use std::alloc::Global;
use type_kinds::{Bytes, List, Memory};

// A token, and another.
type Row<'a> = (&'a str, &'a str);

/// Appends, for each of the tokens that the lines begin with, what is read of the text that ends before it, and of those where it is
/// removed, where it is doubled, and where the other token of its line stands in its place; and then of the whole text.
pub fn append_changed(alloc: Global, lines: &str, out: &mut Bytes) -> Result<(), Memory> {
    let mut rows = List::new(alloc);
    let answer = match add_rows(lines, &mut rows) {
        Ok(()) => append_rows(alloc, rows.as_slice(), out),
        Err(Memory) => Err(Memory),
    };
    drop(rows);
    answer
}

fn add_rows<'a>(lines: &'a str, rows: &mut List<Row<'a>>) -> Result<(), Memory> {
    for line in lines.lines() {
        if let Some(row) = line.split_once(' ') {
            rows.add(row)?;
        }
    }
    Ok(())
}

fn append_rows(alloc: Global, rows: &[Row], out: &mut Bytes) -> Result<(), Memory> {
    for at in 0..rows.len() {
        let (before, rest) = rows.split_at(at);
        if let [row, behind @ ..] = rest {
            append_row(alloc, before, *row, behind, out)?;
        }
    }
    append_text(alloc, rows, &[], &[], out)?;
    out.append(b"\n")
}

fn append_row(
    alloc: Global,
    before: &[Row],
    row: Row,
    behind: &[Row],
    out: &mut Bytes,
) -> Result<(), Memory> {
    let (token, other) = row;
    out.append(token.as_bytes())?;
    append_text(alloc, before, &[], &[], out)?;
    append_text(alloc, before, &[], behind, out)?;
    append_text(alloc, before, &[token, token], behind, out)?;
    append_text(alloc, before, &[other], behind, out)?;
    out.append(b"\n")
}

// Appends what is read of these tokens.
fn append_text(
    alloc: Global,
    before: &[Row],
    instead: &[&str],
    behind: &[Row],
    out: &mut Bytes,
) -> Result<(), Memory> {
    out.append(b" | ")?;
    let mut text = List::new(alloc);
    let answer = match add_text(before, instead, behind, &mut text) {
        Ok(()) => append_outcome(alloc, text.as_slice(), out),
        Err(Memory) => Err(Memory),
    };
    drop(text);
    answer
}

fn append_outcome(alloc: Global, text: &[u8], out: &mut Bytes) -> Result<(), Memory> {
    match module_of(alloc, text) {
        Ok(module) => {
            discard_module(module);
            out.append(b"a module")
        }
        Err(refused) => append_refused(refused, out),
    }
}

fn add_text(
    before: &[Row],
    instead: &[&str],
    behind: &[Row],
    text: &mut Bytes,
) -> Result<(), Memory> {
    add_tokens(before, text)?;
    for token in instead {
        add_token(token, text)?;
    }
    add_tokens(behind, text)
}

fn add_tokens(rows: &[Row], text: &mut Bytes) -> Result<(), Memory> {
    for (token, _) in rows {
        add_token(token, text)?;
    }
    Ok(())
}

fn add_token(token: &str, text: &mut Bytes) -> Result<(), Memory> {
    text.append(token.as_bytes())?;
    text.append(b"\n")
}
