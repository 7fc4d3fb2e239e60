//! The tokens of texts. Each is written as its kind, its value in brackets, its byte and its line.
ghost use Rattle.std.specs.Prelude.{◌≤◌, length};

use crate::faults::{Refused, append_place, append_refused};
use core_scan::{Token, TokenKind, fits, same, scan, sort_of};
use std::alloc::Global;
use type_kinds::{Bytes, Memory};

/// Appends the tokens of a text, or its first fault.
pub fn append_tokens(alloc: Global, text: &[u8], out: &mut Bytes) -> Result<(), Memory>
    requires { length text.now ≤ 10000 }
{
    match scan(alloc, text) {
        Ok(tokens) => {
            let answer = append_all(tokens.as_slice(), out);
            drop(tokens);
            answer
        }
        Err(fault) => append_refused(Refused::from(fault), out),
    }
}

fn append_all(tokens: &[Token], out: &mut Bytes) -> Result<(), Memory> {
    out.append(b"tokens")?;
    for token in tokens {
        append_kind(&token.kind, out)?;
        out.append(b")@")?;
        append_place(token.place, out)?;
    }
    Ok(())
}

fn append_kind(kind: &TokenKind, out: &mut Bytes) -> Result<(), Memory> {
    match kind {
        TokenKind::Word(word) => append_value(b" Word(", word.as_slice(), out),
        TokenKind::Variable(name) => append_value(b" Variable(", name.bytes(), out),
        TokenKind::Integer { value, bare } => {
            out.append(b" Integer(")?;
            out.append_decimal(*value)?;
            out.append(if *bare { b",bare" } else { b"" })
        }
        TokenKind::Float(text) => append_value(b" Float(", text.as_slice(), out),
        TokenKind::Char(byte) => {
            out.append(b" Char(")?;
            out.append_decimal(*byte)
        }
        TokenKind::Atom(atom) => append_value(b" Atom(", atom.bytes(), out),
        TokenKind::Text(text) => append_value(b" Text(", text.as_slice(), out),
        TokenKind::Symbol(symbol) => append_value(b" Symbol(", symbol.as_slice(), out),
    }
}

// A byte that is no printable character of ASCII is written as a backslash and its number.
fn append_value(front: &[u8], value: &[u8], out: &mut Bytes) -> Result<(), Memory> {
    out.append(front)?;
    for byte in value {
        if (32..127).contains(byte) {
            out.add(*byte)?;
        } else {
            out.append(b"\\")?;
            out.append_decimal(*byte)?;
        }
    }
    Ok(())
}

/// Appends the sorts of a text's tokens, or its first fault.
pub fn append_sorts(alloc: Global, text: &[u8], out: &mut Bytes) -> Result<(), Memory>
    requires { length text.now ≤ 10000 }
{
    match scan(alloc, text) {
        Ok(tokens) => {
            let answer = append_all_sorts(alloc, tokens.as_slice(), out);
            drop(tokens);
            answer
        }
        Err(fault) => append_refused(Refused::from(fault), out),
    }
}

fn append_all_sorts(alloc: Global, tokens: &[Token], out: &mut Bytes) -> Result<(), Memory> {
    out.append(b"sorts")?;
    for token in tokens {
        let sort = sort_of(token);
        match format!(in alloc; " {sort:?}") {
            Ok(text) => out.append(text.as_bytes())?,
            Err(_) => return Err(Memory),
        }
    }
    Ok(())
}

/// Appends whether the second of two tokens may stand where the first is wanted, and whether their sorts are one.
pub fn append_fit(alloc: Global, text: &[u8], out: &mut Bytes) -> Result<(), Memory>
    requires { length text.now ≤ 10000 }
{
    match scan(alloc, text) {
        Ok(tokens) => {
            let answer = append_fitting(tokens.as_slice(), out);
            drop(tokens);
            answer
        }
        Err(fault) => append_refused(Refused::from(fault), out),
    }
}

fn append_fitting(tokens: &[Token], out: &mut Bytes) -> Result<(), Memory> {
    let [wanted, found] = tokens else {
        return out.append(b"no two tokens");
    };
    let wanted = sort_of(wanted);
    let found = sort_of(found);
    out.append(if fits(wanted, found) {
        b"fits, "
    } else {
        b"doesn't fit, "
    })?;
    out.append(if same(wanted, found) {
        b"the same sort"
    } else {
        b"another sort"
    })
}
