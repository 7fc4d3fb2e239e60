ghost use Rattle.std.specs.Prelude.{◌≡◌, ◌+◌, ◌≤◌, length, IfOk, IfErr};
ghost use Rattle.core_parse_grammar.specs.Build.{no_note as empty_note, text, value, arity};
ghost use Rattle.core_parse_grammar.specs.Faults.{Starts, Takes, Misses, MissesOrMemory, RanOut, too_deep};
ghost use Rattle.core_parse_grammar.specs.Readings.{mark as mark_at, ReadsAtom};
ghost use Rattle.core_parse_grammar.specs.Weights.{kind_weight, weight};

use crate::fault::PartFault;
use core_ast::{Mark, Note};
use core_scan::{LARGEST_ARITY, Sort, Token, TokenKind, fits, sort_of};
use std::alloc::Global;
use type_kinds::{Atom, List, Memory, Place};

/// How deep nodes may stand in one another.
pub const DEEPEST: u32 = 400;

/// The first token, its sort and its place, and what follows it.
#[derive(Clone, Copy)]
pub struct First<'a> {
    pub token: &'a Token,
    pub sort: Sort,
    pub place: Place,
    pub rest: &'a [Token],
}

/// An atom, its place, and what follows it.
#[derive(Drop)]
pub struct ReadAtom<'a> {
    pub name: Atom,
    pub place: Place,
    pub rest: &'a [Token],
}

/// The note of a node without annotation.
pub fn no_note() -> Note
    ensures { result ≡ empty_note }
{
    Note {
        line: None,
        generated: false,
    }
}

/// A node's mark: its label and its place, and no note.
pub fn mark(label: u32, place: Place) -> Mark
    ensures { result ≡ mark_at label place }
{
    Mark {
        label,
        place,
        note: no_note(),
    }
}

/// The first token.
#[tactic(auto, using(crate::proofs::LeafExits::next_exits))]
pub fn next<'a>(tokens: &'a [Token]) -> Result<First<'a>, PartFault>
    ensures ok { IfOk result (λ r. Starts tokens.now r.token.now r.sort r.place r.rest.now) }
    ensures shorter { IfOk result (λ r. length r.rest.now + 1 ≡ length tokens.now) }
    ensures lighter { IfOk result (λ r. weight r.rest.now + kind_weight r.token.now.kind ≡ weight tokens.now) }
    ensures err { IfErr result (λ e. RanOut tokens.now e) }
{
    match tokens.split_first() {
        Some((token, rest)) => Ok(First {
            token,
            sort: sort_of(token),
            place: token.place,
            rest,
        }),
        None => Err(PartFault::End),
    }
}

/// What follows a token that stands for the sort, which comes first.
#[tactic(auto, using(crate::proofs::LeafExits::take_exits))]
pub fn take<'a>(tokens: &'a [Token], sort: Sort) -> Result<&'a [Token], PartFault>
    ensures ok { IfOk result (λ r. Takes sort tokens.now r.now) }
    ensures shorter { IfOk result (λ r. length r.now + 1 ≡ length tokens.now) }
    ensures lighter { IfOk result (λ r. weight r.now + 2 ≤ weight tokens.now) }
    ensures err { IfErr result (λ e. Misses sort tokens.now e) }
{
    match next(tokens) {
        Ok(first) => {
            if fits(sort, first.sort) {
                Ok(first.rest)
            } else {
                Err(PartFault::Syntax(first.place))
            }
        }
        Err(fault) => Err(fault),
    }
}

/// The atom that comes first.
#[tactic(auto, using(crate::proofs::LeafExits::take_exits))]
pub fn take_atom<'a>(alloc: Global, tokens: &'a [Token]) -> Result<ReadAtom<'a>, PartFault>
    ensures ok { IfOk result (λ r. ReadsAtom tokens.now r.name r.place r.rest.now) }
    ensures shorter { IfOk result (λ r. length r.rest.now + 1 ≡ length tokens.now) }
    ensures lighter { IfOk result (λ r. weight r.rest.now + 2 ≤ weight tokens.now) }
    ensures err { IfErr result (λ e. MissesOrMemory Sort.Atom tokens.now e) }
{
    let first = match next(tokens) {
        Ok(first) => first,
        Err(fault) => return Err(fault),
    };
    if !fits(Sort::Atom, first.sort) {
        return Err(PartFault::Syntax(first.place));
    }
    match text_of(alloc, first.token) {
        Ok(name) => Ok(ReadAtom {
            name,
            place: first.place,
            rest: first.rest,
        }),
        Err(Memory) => Err(PartFault::Memory),
    }
}

/// Whether the node that begins with a token of the sort is too deep, or the nodes inside it that the
/// same token makes: the bytes of a string.
pub fn is_too_deep(sort: Sort, depth: u32) -> bool
    requires { depth ≤ DEEPEST + 1 }
    ensures { result ≡ too_deep sort depth }
{
    match sort {
        Sort::Text => DEEPEST < depth + 1,
        _ => DEEPEST < depth,
    }
}

/// The name of a variable or an atom, the spelling of a float or the bytes of a string, and else
/// nothing.
pub fn text_bytes(token: &Token) -> &[u8]
    ensures { result.now ≡ text token.now }
{
    match &token.kind {
        TokenKind::Variable(name) | TokenKind::Atom(name) => name.bytes(),
        TokenKind::Float(bytes) | TokenKind::Text(bytes) => bytes.as_slice(),
        _ => &[],
    }
}

/// A copy of `text_bytes`, as an atom.
pub fn text_of(alloc: Global, token: &Token) -> Result<Atom, Memory>
    ensures { IfOk result (λ name. name ≡ text token.now) }
{
    match List::from_slice(alloc, text_bytes(token)) {
        Ok(bytes) => Ok(Atom::from_bytes(bytes)),
        Err(Memory) => Err(Memory),
    }
}

/// The value of an integer or a character, and else 0.
pub fn value_of(token: &Token) -> i128
    ensures { result ≡ value token.now }
{
    match &token.kind {
        TokenKind::Integer { value, .. } => *value,
        TokenKind::Char(byte) => i128::from(*byte),
        _ => 0,
    }
}

/// The arity that an integer is, where it is at most `LARGEST_ARITY`, and else 0.
pub fn arity_of(token: &Token) -> u32
    ensures { result ≡ arity token.now }
{
    let value = value_of(token);
    if 0 <= value && value <= i128::from(LARGEST_ARITY) {
        value as u32
    } else {
        0
    }
}
