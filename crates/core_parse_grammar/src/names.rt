ghost use Rattle.std.specs.Prelude.{◌≡◌, ◌<◌, ◌≤◌, length, IfOk, IfErr};
ghost use Rattle.core_parse_grammar.specs.Build.{fun_name};
ghost use Rattle.core_parse_grammar.specs.Grammar.{a, A, the, noted_, many, function_name as function_name_part};
ghost use Rattle.core_parse_grammar.specs.Faults.{Refuses};
ghost use Rattle.core_parse_grammar.specs.Readings.{ReadsAnnotatedAtom, ReadsFunctionName, ReadsExport, ReadsExports};
ghost use Rattle.core_parse_grammar.specs.Weights.{weight};

use crate::annotations::annotation;
use crate::fault::PartFault;
use crate::leaves::{arity_of, next, take, text_of};
use core_ast::FunName;
use core_scan::{Sort, Token, fits};
use std::alloc::Global;
use type_kinds::{List, Memory, Place};

/// The tokens of a function's name, the place of its atom, and what follows them.
#[derive(Clone, Copy)]
pub struct NameTokens<'a> {
    pub name: &'a Token,
    pub number: &'a Token,
    pub place: Place,
    pub rest: &'a [Token],
}

/// A function's name, the place of its atom, and what follows it.
#[derive(Drop)]
pub struct ReadFunctionName<'a> {
    pub name: FunName,
    pub place: Place,
    pub rest: &'a [Token],
}

/// The exports of a module, their places, and what follows their bracket.
#[derive(Drop)]
pub struct ReadExports<'a> {
    pub names: List<FunName>,
    pub places: List<Place>,
    pub rest: &'a [Token],
}

/// An atom, with or without annotation brackets, and what follows it.
#[derive(Clone, Copy)]
pub struct ReadAnnotatedAtom<'a> {
    pub atom: &'a Token,
    pub rest: &'a [Token],
}

/// The tokens of the function's name that comes first.
pub fn name_tokens<'a>(tokens: &'a [Token]) -> Result<NameTokens<'a>, PartFault>
    ensures ok { IfOk result (λ r. ReadsFunctionName tokens.now r.place (fun_name r.name.now r.number.now) r.rest.now) }
    ensures shorter { IfOk result (λ r. length r.rest.now < length tokens.now) }
    ensures lighter { IfOk result (λ r. weight r.rest.now ≤ weight tokens.now) }
    ensures err { IfErr result (λ e. Refuses function_name_part tokens.now e) }
{
    let first = match next(tokens) {
        Ok(first) => first,
        Err(fault) => return Err(fault),
    };
    if !fits(Sort::Atom, first.sort) {
        return Err(PartFault::Syntax(first.place));
    }
    let rest = match take(first.rest, Sort::Slash) {
        Ok(rest) => rest,
        Err(fault) => return Err(fault),
    };
    let number = match next(rest) {
        Ok(number) => number,
        Err(fault) => return Err(fault),
    };
    if !fits(Sort::Small, number.sort) {
        return Err(PartFault::Syntax(number.place));
    }
    Ok(NameTokens {
        name: first.token,
        number: number.token,
        place: first.place,
        rest: number.rest,
    })
}

/// The function's name that comes first.
pub fn function_name<'a>(
    alloc: Global,
    tokens: &'a [Token],
) -> Result<ReadFunctionName<'a>, PartFault>
    ensures ok { IfOk result (λ r. ReadsFunctionName tokens.now r.place r.name r.rest.now) }
    ensures shorter { IfOk result (λ r. length r.rest.now < length tokens.now) }
    ensures lighter { IfOk result (λ r. weight r.rest.now ≤ weight tokens.now) }
    ensures err { IfErr result (λ e. Refuses function_name_part tokens.now e) }
{
    let read = match name_tokens(tokens) {
        Ok(read) => read,
        Err(fault) => return Err(fault),
    };
    match text_of(alloc, read.name) {
        Ok(name) => Ok(ReadFunctionName {
            name: FunName {
                name,
                arity: arity_of(read.number),
            },
            place: read.place,
            rest: read.rest,
        }),
        Err(Memory) => Err(PartFault::Memory),
    }
}

/// The function's name that comes first, with or without annotation brackets.
pub fn annotated_function_name<'a>(
    alloc: Global,
    tokens: &'a [Token],
) -> Result<ReadFunctionName<'a>, PartFault>
    ensures ok { IfOk result (λ r. ReadsExport tokens.now r.place r.name r.rest.now) }
    ensures shorter { IfOk result (λ r. length r.rest.now < length tokens.now) }
    ensures lighter { IfOk result (λ r. weight r.rest.now ≤ weight tokens.now) }
    ensures err { IfErr result (λ e. Refuses (noted_ (the function_name_part)) tokens.now e) }
{
    let first = match next(tokens) {
        Ok(first) => first,
        Err(fault) => return Err(fault),
    };
    if !fits(Sort::OpenRound, first.sort) {
        return match function_name(alloc, tokens) {
            Ok(read) => Ok(read),
            Err(fault) => Err(fault),
        };
    }
    let ReadFunctionName { name, place, rest } = match function_name(alloc, first.rest) {
        Ok(read) => read,
        Err(fault) => return Err(fault),
    };
    match annotation(alloc, rest) {
        Ok(read) => Ok(ReadFunctionName {
            name,
            place,
            rest: read.rest,
        }),
        Err(fault) => Err(fault),
    }
}

/// The atom that comes first, with or without annotation brackets.
pub fn annotated_atom<'a>(
    alloc: Global,
    tokens: &'a [Token],
) -> Result<ReadAnnotatedAtom<'a>, PartFault>
    ensures ok { IfOk result (λ r. ReadsAnnotatedAtom tokens.now r.atom.now r.rest.now) }
    ensures shorter { IfOk result (λ r. length r.rest.now < length tokens.now) }
    ensures lighter { IfOk result (λ r. weight r.rest.now ≤ weight tokens.now) }
    ensures err { IfErr result (λ e. Refuses (noted_ (a Sort.Atom)) tokens.now e) }
{
    let first = match next(tokens) {
        Ok(first) => first,
        Err(fault) => return Err(fault),
    };
    if fits(Sort::Atom, first.sort) {
        return Ok(ReadAnnotatedAtom {
            atom: first.token,
            rest: first.rest,
        });
    }
    if !fits(Sort::OpenRound, first.sort) {
        return Err(PartFault::Syntax(first.place));
    }
    let second = match next(first.rest) {
        Ok(second) => second,
        Err(fault) => return Err(fault),
    };
    if !fits(Sort::Atom, second.sort) {
        return Err(PartFault::Syntax(second.place));
    }
    match annotation(alloc, second.rest) {
        Ok(read) => Ok(ReadAnnotatedAtom {
            atom: second.token,
            rest: read.rest,
        }),
        Err(fault) => Err(fault),
    }
}

/// Functions' names with commas between them, each with or without annotation brackets, up to and
/// with the closing square bracket.
pub fn exports<'a>(alloc: Global, tokens: &'a [Token]) -> Result<ReadExports<'a>, PartFault>
    ensures ok { IfOk result (λ r. ReadsExports tokens.now r.names r.places r.rest.now) }
    ensures shorter { IfOk result (λ r. length r.rest.now < length tokens.now) }
    ensures lighter { IfOk result (λ r. weight r.rest.now ≤ weight tokens.now) }
    ensures err { IfErr result (λ e. Refuses (many Sort.CloseSquare (A (the function_name_part))) tokens.now e) }
{
    let first = match next(tokens) {
        Ok(first) => first,
        Err(fault) => return Err(fault),
    };
    let mut names = List::new(alloc);
    let mut places = List::new(alloc);
    if fits(Sort::CloseSquare, first.sort) {
        return Ok(ReadExports {
            names,
            places,
            rest: first.rest,
        });
    }
    let mut from = tokens;
    loop {
        let read = match annotated_function_name(alloc, from) {
            Ok(read) => read,
            Err(fault) => return Err(fault),
        };
        match names.add(read.name) {
            Ok(()) => {}
            Err(Memory) => return Err(PartFault::Memory),
        }
        match places.add(read.place) {
            Ok(()) => {}
            Err(Memory) => return Err(PartFault::Memory),
        }
        let after = match next(read.rest) {
            Ok(after) => after,
            Err(fault) => return Err(fault),
        };
        if fits(Sort::CloseSquare, after.sort) {
            return Ok(ReadExports {
                names,
                places,
                rest: after.rest,
            });
        }
        if !fits(Sort::Comma, after.sort) {
            return Err(PartFault::Syntax(after.place));
        }
        from = after.rest;
    }
}
