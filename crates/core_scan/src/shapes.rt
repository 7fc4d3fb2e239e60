// The one token that bytes begin with.
ghost use Rattle.std.specs.Prelude.{◌≡◌, ◌≢◌, ◌+◌, ◌<◌, ◌≤◌, length, drop, slice_index};
ghost use Rattle.std.specs.Prelude.{if◌then◌else◌, IsTrue, IsFalse, IfOk, IfErr};
ghost use Rattle.std.specs.List.{prefix_len};
ghost use Rattle.type_kinds.specs.Digits.{is_digit};
ghost use Rattle.core_scan.specs.Bytes.{is_lower, is_blank, past};
ghost use Rattle.core_scan.specs.Spells.{is_variable_start};
ghost use Rattle.core_scan.specs.Lexed.{IsQuote, FaultAt};
ghost use Rattle.core_scan.specs.steps.Fronts.{sign_len, is_cut_off};
ghost use Rattle.core_scan.specs.steps.Found.{Begins, HasRoom, IsOther};

use crate::classes::{is_lower, is_upper};
use crate::escapes::escape;
use crate::numbers::{fraction_len, sign_len, signed};
use crate::places::past;
use crate::quotes::read_unquoted;
use crate::runs::name_len;
use crate::symbols::symbol_len;
use crate::token::{ScanFault, TokenKind};
use crate::vocabulary::is_reserved;
use std::alloc::Global;
use type_kinds::{Atom, List, Place, digits_len, parse_decimal};

/// A token, and how many bytes spell it.
#[derive(Debug, Drop)]
pub struct Found {
    pub kind: TokenKind,
    pub len: usize,
}

/// The longest token that the bytes begin with, or the fault at their first byte.
pub fn one_token(alloc: Global, rest: &[u8], place: Place) -> Result<Found, ScanFault>
    requires some { 0 < length rest.now }
    requires no_blank { IsFalse (is_blank (slice_index rest.now 0)) }
    requires no_comment { slice_index rest.now 0 ≢ 37 }
    requires room { HasRoom place (length rest.now) }
    ensures ok { IfOk result (λ found. Begins rest.now found.kind found.len) }
    ensures err { IfErr result (λ fault. fault ≢ ScanFault.Memory → FaultAt place rest.now fault) }
{
    let first = rest[0];
    if is_lower(first) {
        return word(alloc, rest, place);
    }
    if is_upper(first) || first == b'_' {
        return variable(alloc, rest);
    }
    if first == b'$' {
        return character(rest, place);
    }
    if first == b'\'' || first == b'"' {
        return quoted(alloc, rest, place);
    }
    let sign = sign_len(rest);
    let whole = digits_len(&rest[sign..]);
    if whole > 0 {
        number(alloc, rest, place, sign, whole)
    } else {
        symbol(alloc, rest, place)
    }
}

fn word(alloc: Global, rest: &[u8], place: Place) -> Result<Found, ScanFault>
    requires { IsTrue (is_lower (slice_index rest.now 0)) }
    ensures ok { IfOk result (λ found. Begins rest.now found.kind found.len) }
    ensures err { IfErr result (λ fault. fault ≢ ScanFault.Memory → FaultAt place rest.now fault) }
{
    let len = name_len(rest);
    let word = &rest[..len];
    if !is_reserved(word) {
        return Err(ScanFault::BadByte(place));
    }
    Ok(Found {
        kind: TokenKind::Word(List::from_slice(alloc, word)?),
        len,
    })
}

fn variable(alloc: Global, rest: &[u8]) -> Result<Found, ScanFault>
    requires { IsTrue (is_variable_start (slice_index rest.now 0)) }
    ensures ok { IfOk result (λ found. Begins rest.now found.kind found.len) }
    ensures err { IfErr result (λ fault. fault ≡ ScanFault.Memory) }
{
    let len = name_len(rest);
    let name = List::from_slice(alloc, &rest[..len])?;
    Ok(Found {
        kind: TokenKind::Variable(Atom::from_bytes(name)),
        len,
    })
}

fn number(
    alloc: Global,
    rest: &[u8],
    place: Place,
    sign: usize,
    whole: usize,
) -> Result<Found, ScanFault>
    requires sign { sign ≡ sign_len rest.now }
    requires whole { whole ≡ prefix_len is_digit (drop sign rest.now) }
    requires some { 0 < whole }
    requires within { sign + whole ≤ length rest.now }
    ensures ok { IfOk result (λ found. Begins rest.now found.kind found.len) }
    ensures err { IfErr result (λ fault. fault ≢ ScanFault.Memory → FaultAt place rest.now fault) }
{
    let len = sign + whole;
    let fraction = fraction_len(&rest[len..]);
    if fraction > 0 {
        return Ok(Found {
            kind: TokenKind::Float(List::from_slice(alloc, &rest[..len + fraction])?),
            len: len + fraction,
        });
    }
    let Some(magnitude) = parse_decimal(&rest[sign..len]) else {
        return Err(ScanFault::WideInteger(place));
    };
    Ok(Found {
        kind: TokenKind::Integer {
            value: signed(rest[0], magnitude),
            bare: sign == 0,
        },
        len,
    })
}

fn character(rest: &[u8], place: Place) -> Result<Found, ScanFault>
    requires { slice_index rest.now 0 ≡ 36 }
    ensures ok { IfOk result (λ found. Begins rest.now found.kind found.len) }
    ensures err { IfErr result (λ fault. fault ≢ ScanFault.Memory → FaultAt place rest.now fault) }
{
    let Some((first, after)) = rest[1..].split_first() else {
        return Err(ScanFault::BadByte(place));
    };
    if *first == b'\\' {
        let Some(found) = escape(after) else {
            return Err(ScanFault::BadByte(place));
        };
        return Ok(Found {
            kind: TokenKind::Char(found.value),
            len: 2 + found.len,
        });
    }
    if *first < 32 || *first == 127 {
        return Err(ScanFault::BadByte(place));
    }
    Ok(Found {
        kind: TokenKind::Char(*first),
        len: 2,
    })
}

fn quoted(alloc: Global, rest: &[u8], place: Place) -> Result<Found, ScanFault>
    requires quote { IsQuote (slice_index rest.now 0) }
    requires room { HasRoom place (length rest.now) }
    ensures ok { IfOk result (λ found. Begins rest.now found.kind found.len) }
    ensures err { IfErr result (λ fault. fault ≢ ScanFault.Memory → FaultAt place rest.now fault) }
{
    let quote = rest[0];
    let inside = read_unquoted(alloc, quote, &rest[1..])?;
    let len = 1 + inside.len;
    let Some((end, after)) = rest[len..].split_first() else {
        return Err(ScanFault::OpenQuote(place));
    };
    if *end != quote {
        return Err(escape_fault(place, &rest[..len], after));
    }
    let kind = if quote == b'\'' {
        TokenKind::Atom(Atom::from_bytes(inside.text))
    } else {
        TokenKind::Text(inside.text)
    };
    Ok(Found { kind, len: len + 1 })
}

// The fault where a backslash begins no escape.
fn escape_fault(place: Place, front: &[u8], after: &[u8]) -> ScanFault
    requires room { HasRoom place (length front.now) }
    ensures { result ≡ (if is_cut_off after.now then ScanFault.OpenQuote place else ScanFault.BadEscape (past place front.now)) }
{
    if is_cut_off(after) {
        ScanFault::OpenQuote(place)
    } else {
        ScanFault::BadEscape(past(place, front))
    }
}

// Whether the text ends inside the escape whose backslash these bytes follow.
fn is_cut_off(after: &[u8]) -> bool
    ensures { result ≡ is_cut_off after.now }
{
    let Some((first, more)) = after.split_first() else {
        return true;
    };
    *first == b'^' && more.is_empty()
}

fn symbol(alloc: Global, rest: &[u8], place: Place) -> Result<Found, ScanFault>
    requires some { 0 < length rest.now }
    requires other { IsOther (slice_index rest.now 0) }
    requires no_number { prefix_len is_digit (drop (sign_len rest.now) rest.now) ≡ 0 }
    ensures ok { IfOk result (λ found. Begins rest.now found.kind found.len) }
    ensures err { IfErr result (λ fault. fault ≢ ScanFault.Memory → FaultAt place rest.now fault) }
{
    let len = symbol_len(rest);
    if len == 0 {
        return Err(ScanFault::BadByte(place));
    }
    Ok(Found {
        kind: TokenKind::Symbol(List::from_slice(alloc, &rest[..len])?),
        len,
    })
}
