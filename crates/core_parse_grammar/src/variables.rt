ghost use Rattle.std.specs.Prelude.{◌≡◌, ◌<◌, ◌≤◌, true, length, IfOk, IfErr};
ghost use Rattle.core_parse_grammar.specs.Build.{text};
ghost use Rattle.core_parse_grammar.specs.Grammar.{the, many, variable as variable_part, variables as variables_part};
ghost use Rattle.core_parse_grammar.specs.Faults.{Refuses, closing};
ghost use Rattle.core_parse_grammar.specs.Readings.{ReadsVariable, ReadsVariables, ReadsVariablesTo};
ghost use Rattle.core_parse_grammar.specs.Weights.{weight};

use crate::annotations::annotation;
use crate::fault::PartFault;
use crate::leaves::{First, next, no_note, text_of};
use core_ast::{Note, VarName};
use core_scan::{Sort, Token, fits};
use std::alloc::Global;
use type_kinds::{List, Memory};

/// A variable, and what follows it.
#[derive(Drop)]
pub struct ReadVariable<'a> {
    pub variable: VarName,
    pub rest: &'a [Token],
}

/// Variables, and what follows them.
#[derive(Drop)]
pub struct ReadVariables<'a> {
    pub variables: List<VarName>,
    pub rest: &'a [Token],
}

/// The variable that comes first, with or without annotation brackets.
pub fn variable<'a>(alloc: Global, tokens: &'a [Token]) -> Result<ReadVariable<'a>, PartFault>
    ensures ok { IfOk result (λ r. ReadsVariable tokens.now r.variable r.rest.now) }
    ensures shorter { IfOk result (λ r. length r.rest.now < length tokens.now) }
    ensures lighter { IfOk result (λ r. weight r.rest.now ≤ weight tokens.now) }
    ensures err { IfErr result (λ e. Refuses variable_part tokens.now e) }
{
    let first = match next(tokens) {
        Ok(first) => first,
        Err(fault) => return Err(fault),
    };
    if fits(Sort::Variable, first.sort) {
        return match named(alloc, first, no_note()) {
            Ok(variable) => Ok(ReadVariable {
                variable,
                rest: first.rest,
            }),
            Err(Memory) => Err(PartFault::Memory),
        };
    }
    if !fits(Sort::OpenRound, first.sort) {
        return Err(PartFault::Syntax(first.place));
    }
    let second = match next(first.rest) {
        Ok(second) => second,
        Err(fault) => return Err(fault),
    };
    if !fits(Sort::Variable, second.sort) {
        return Err(PartFault::Syntax(second.place));
    }
    match annotation(alloc, second.rest) {
        Ok(read) => match named(alloc, second, read.note) {
            Ok(variable) => Ok(ReadVariable {
                variable,
                rest: read.rest,
            }),
            Err(Memory) => Err(PartFault::Memory),
        },
        Err(fault) => Err(fault),
    }
}

// The variable of a token, with a note.
fn named<'a>(alloc: Global, token: First<'a>, note: Note) -> Result<VarName, Memory>
    ensures { IfOk result (λ made. made ≡ record { name = text token.entry.token.now; place = token.entry.place; note = note }) }
{
    match text_of(alloc, token.token) {
        Ok(name) => Ok(VarName {
            name,
            place: token.place,
            note,
        }),
        Err(Memory) => Err(Memory),
    }
}

/// Variables with commas between them, up to and with the token that closes them.
pub fn variables_to<'a>(
    alloc: Global,
    tokens: &'a [Token],
    close: Sort,
) -> Result<ReadVariables<'a>, PartFault>
    requires { closing close ≡ true }
    ensures ok { IfOk result (λ r. ReadsVariablesTo close tokens.now r.variables r.rest.now) }
    ensures shorter { IfOk result (λ r. length r.rest.now < length tokens.now) }
    ensures lighter { IfOk result (λ r. weight r.rest.now ≤ weight tokens.now) }
    ensures err { IfErr result (λ e. Refuses (many close (the variable_part)) tokens.now e) }
{
    let first = match next(tokens) {
        Ok(first) => first,
        Err(fault) => return Err(fault),
    };
    let mut variables = List::new(alloc);
    if fits(close, first.sort) {
        return Ok(ReadVariables {
            variables,
            rest: first.rest,
        });
    }
    let mut from = tokens;
    loop {
        let read = match variable(alloc, from) {
            Ok(read) => read,
            Err(fault) => return Err(fault),
        };
        match variables.add(read.variable) {
            Ok(()) => {}
            Err(Memory) => return Err(PartFault::Memory),
        }
        let after = match next(read.rest) {
            Ok(after) => after,
            Err(fault) => return Err(fault),
        };
        if fits(close, after.sort) {
            return Ok(ReadVariables {
                variables,
                rest: after.rest,
            });
        }
        if !fits(Sort::Comma, after.sort) {
            return Err(PartFault::Syntax(after.place));
        }
        from = after.rest;
    }
}

/// One variable, or variables in angle brackets.
pub fn variables<'a>(alloc: Global, tokens: &'a [Token]) -> Result<ReadVariables<'a>, PartFault>
    ensures ok { IfOk result (λ r. ReadsVariables tokens.now r.variables r.rest.now) }
    ensures shorter { IfOk result (λ r. length r.rest.now < length tokens.now) }
    ensures lighter { IfOk result (λ r. weight r.rest.now ≤ weight tokens.now) }
    ensures err { IfErr result (λ e. Refuses variables_part tokens.now e) }
{
    let first = match next(tokens) {
        Ok(first) => first,
        Err(fault) => return Err(fault),
    };
    if fits(Sort::Less, first.sort) {
        return match variables_to(alloc, first.rest, Sort::Greater) {
            Ok(read) => Ok(read),
            Err(fault) => Err(fault),
        };
    }
    let read = match variable(alloc, tokens) {
        Ok(read) => read,
        Err(fault) => return Err(fault),
    };
    let mut variables = List::new(alloc);
    match variables.add(read.variable) {
        Ok(()) => Ok(ReadVariables {
            variables,
            rest: read.rest,
        }),
        Err(Memory) => Err(PartFault::Memory),
    }
}
