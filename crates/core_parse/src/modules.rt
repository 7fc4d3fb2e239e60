ghost use Rattle.std.specs.Prelude.{◌≡◌, ◌+◌, ◌^◌, ◌<◌, ◌≤◌, length, IfOk, IfErr};
ghost use Rattle.core_ast.specs.Tree.{module_tree};
ghost use Rattle.core_parse_grammar.specs.Begins.{IsModule, Refused};
ghost use Rattle.core_parse_grammar.specs.Grammar.{the, many, noted_, annotated_module as annotated_module_part};
ghost use Rattle.core_parse_grammar.specs.Grammar.{«module» as module_part, attribute as attribute_part, constant};
ghost use Rattle.core_parse_grammar.specs.Faults.{Refuses};
ghost use Rattle.core_parse_grammar.specs.Readings.{ReadsAnnotatedConstant, ReadsAttribute, ReadsAttributes, ReadsHeader, ReadsBareModule, ReadsModule};
ghost use Rattle.core_parse_grammar.specs.Weights.{weight};

use core_ast::{FunDef, FunName, Module, discard_module};
use core_parse_forms::Read;
use core_parse_forms::definitions::definitions;
use core_parse_grammar::annotations::annotation;
use core_parse_grammar::constants::constant;
use core_parse_grammar::fault::{ParseFault, PartFault};
use core_parse_grammar::leaves::{next, no_note, take, text_of};
use core_parse_grammar::names::{annotated_atom, exports};
use core_scan::{Sort, Token, fits};
use std::alloc::Global;
use type_kinds::{List, Memory, Place, Shared};

/// A module, and what follows it.
struct ReadModule<'a> {
    module: Module,
    rest: &'a [Token],
}

/// What stands before a module's definitions: its name and its exports.
#[derive(Drop)]
struct ReadHeader<'a> {
    name: &'a Token,
    exports: List<FunName>,
    export_places: List<Place>,
    rest: &'a [Token],
}

/// The module that the tokens of a text spell, where the text ends at `end`: with the label, the place
/// and the note of each node, by the grammar of Core Erlang 1.0.3 with the maps of later compilers.
///
/// `Syntax` has the place of the first token up to which no module's tokens go, or `end` where all
/// tokens begin a module and spell none. `TooDeep` has the place of the token where the first node at
/// depth 401 begins. `Memory`: allocation failed. This says nothing of the text.
pub fn parse(alloc: Global, tokens: &[Token], end: Place) -> Result<Module, ParseFault>
    requires { weight tokens.now < 2 ^ 32 }
    ensures ok { IfOk result (λ made. IsModule tokens.now (module_tree made)) }
    ensures err { IfErr result (λ fault. Refused tokens.now end fault) }
{
    let ReadModule { module, rest } = match annotated_module(alloc, tokens) {
        Ok(read) => read,
        Err(fault) => return Err(fault.in_text(end)),
    };
    match next(rest) {
        Ok(first) => {
            discard_module(module);
            Err(ParseFault::Syntax(first.place))
        }
        Err(_) => Ok(module),
    }
}

// A module, with or without annotation brackets.
fn annotated_module<'a>(alloc: Global, tokens: &'a [Token]) -> Result<ReadModule<'a>, PartFault>
    requires { weight tokens.now < 2 ^ 32 }
    ensures ok { IfOk result (λ r. ReadsModule tokens.now (module_tree r.module) r.rest.now) }
    ensures err { IfErr result (λ e. Refuses annotated_module_part tokens.now e) }
{
    let first = match next(tokens) {
        Ok(first) => first,
        Err(fault) => return Err(fault),
    };
    if !fits(Sort::OpenRound, first.sort) {
        return match bare_module(alloc, tokens) {
            Ok(read) => Ok(read),
            Err(fault) => Err(fault),
        };
    }
    let ReadModule { module, rest } = match bare_module(alloc, first.rest) {
        Ok(read) => read,
        Err(fault) => return Err(fault),
    };
    match annotation(alloc, rest) {
        Ok(read) => Ok(ReadModule {
            module: Module {
                name: module.name,
                exports: module.exports,
                export_places: module.export_places,
                defs: module.defs,
                note: read.note,
            },
            rest: read.rest,
        }),
        Err(fault) => {
            discard_module(module);
            Err(fault)
        }
    }
}

// A module without annotation brackets.
fn bare_module<'a>(alloc: Global, tokens: &'a [Token]) -> Result<ReadModule<'a>, PartFault>
    requires { weight tokens.now < 2 ^ 32 }
    ensures ok { IfOk result (λ r. ReadsBareModule tokens.now (module_tree r.module) r.rest.now) }
    ensures err { IfErr result (λ e. Refuses module_part tokens.now e) }
{
    let header = match header(alloc, tokens) {
        Ok(header) => header,
        Err(fault) => return Err(fault),
    };
    let name = match text_of(alloc, header.name) {
        Ok(name) => name,
        Err(Memory) => return Err(PartFault::Memory),
    };
    let Read {
        value: items,
        rest,
        label: _,
    } = match definitions(alloc, header.rest, Sort::End, 1, 0) {
        Ok(read) => read,
        Err(fault) => return Err(fault),
    };
    match shared(alloc, items) {
        Ok(defs) => Ok(ReadModule {
            module: Module {
                name,
                exports: header.exports,
                export_places: header.export_places,
                defs,
                note: no_note(),
            },
            rest,
        }),
        Err(Memory) => Err(PartFault::Memory),
    }
}

// The definitions, each to be shared. If allocation fails they are dropped.
fn shared(alloc: Global, functions: List<FunDef>) -> Result<List<Shared<FunDef>>, Memory>
    ensures { IfOk result (λ made. made ≡ functions) }
{
    let mut definitions = List::new(alloc);
    for function in functions.into_vec() {
        let definition = match Shared::new(alloc, function) {
            Ok(definition) => definition,
            Err(Memory) => return Err(Memory),
        };
        match definitions.add(definition) {
            Ok(()) => {}
            Err(Memory) => return Err(Memory),
        }
    }
    Ok(definitions)
}

// The word `module`, the name, the exports and the attributes.
fn header<'a>(alloc: Global, tokens: &'a [Token]) -> Result<ReadHeader<'a>, PartFault>
    ensures ok { IfOk result (λ r. ReadsHeader tokens.now r.name.now r.exports r.export_places r.rest.now) }
    ensures lighter { IfOk result (λ r. weight r.rest.now ≤ weight tokens.now) }
    ensures err { IfErr result (λ e. Refuses module_part tokens.now e) }
{
    let rest = match take(tokens, Sort::Module) {
        Ok(rest) => rest,
        Err(fault) => return Err(fault),
    };
    let name = match annotated_atom(alloc, rest) {
        Ok(name) => name,
        Err(fault) => return Err(fault),
    };
    let rest = match take(name.rest, Sort::OpenSquare) {
        Ok(rest) => rest,
        Err(fault) => return Err(fault),
    };
    let exports = match exports(alloc, rest) {
        Ok(exports) => exports,
        Err(fault) => return Err(fault),
    };
    let rest = match take(exports.rest, Sort::Attributes) {
        Ok(rest) => rest,
        Err(fault) => return Err(fault),
    };
    let rest = match take(rest, Sort::OpenSquare) {
        Ok(rest) => rest,
        Err(fault) => return Err(fault),
    };
    match attributes(alloc, rest) {
        Ok(rest) => Ok(ReadHeader {
            name: name.atom,
            exports: exports.names,
            export_places: exports.places,
            rest,
        }),
        Err(fault) => Err(fault),
    }
}

// Attributes with commas between them, up to and with the closing square bracket.
fn attributes<'a>(alloc: Global, tokens: &'a [Token]) -> Result<&'a [Token], PartFault>
    ensures ok { IfOk result (λ r. ReadsAttributes tokens.now r.now) }
    ensures lighter { IfOk result (λ r. weight r.now ≤ weight tokens.now) }
    ensures err { IfErr result (λ e. Refuses (many Sort.CloseSquare (the attribute_part)) tokens.now e) }
{
    let first = match next(tokens) {
        Ok(first) => first,
        Err(fault) => return Err(fault),
    };
    if fits(Sort::CloseSquare, first.sort) {
        return Ok(first.rest);
    }
    let mut from = tokens;
    loop {
        let rest = match attribute(alloc, from) {
            Ok(rest) => rest,
            Err(fault) => return Err(fault),
        };
        let after = match next(rest) {
            Ok(after) => after,
            Err(fault) => return Err(fault),
        };
        if fits(Sort::CloseSquare, after.sort) {
            return Ok(after.rest);
        }
        if !fits(Sort::Comma, after.sort) {
            return Err(PartFault::Syntax(after.place));
        }
        from = after.rest;
    }
}

// atom = constant, each with or without annotation brackets
fn attribute<'a>(alloc: Global, tokens: &'a [Token]) -> Result<&'a [Token], PartFault>
    ensures ok { IfOk result (λ r. ReadsAttribute tokens.now r.now) }
    ensures shorter { IfOk result (λ r. length r.now < length tokens.now) }
    ensures lighter { IfOk result (λ r. weight r.now ≤ weight tokens.now) }
    ensures err { IfErr result (λ e. Refuses attribute_part tokens.now e) }
{
    let name = match annotated_atom(alloc, tokens) {
        Ok(name) => name,
        Err(fault) => return Err(fault),
    };
    let rest = match take(name.rest, Sort::Equals) {
        Ok(rest) => rest,
        Err(fault) => return Err(fault),
    };
    match annotated_constant(alloc, rest) {
        Ok(rest) => Ok(rest),
        Err(fault) => Err(fault),
    }
}

// A constant, with or without annotation brackets.
fn annotated_constant<'a>(alloc: Global, tokens: &'a [Token]) -> Result<&'a [Token], PartFault>
    ensures ok { IfOk result (λ r. ReadsAnnotatedConstant tokens.now r.now) }
    ensures shorter { IfOk result (λ r. length r.now < length tokens.now) }
    ensures lighter { IfOk result (λ r. weight r.now ≤ weight tokens.now) }
    ensures err { IfErr result (λ e. Refuses (noted_ (the (constant 1))) tokens.now e) }
{
    let first = match next(tokens) {
        Ok(first) => first,
        Err(fault) => return Err(fault),
    };
    if !fits(Sort::OpenRound, first.sort) {
        return match constant(alloc, tokens, 1) {
            Ok(read) => Ok(read.rest),
            Err(fault) => Err(fault),
        };
    }
    let read = match constant(alloc, first.rest, 1) {
        Ok(read) => read,
        Err(fault) => return Err(fault),
    };
    match annotation(alloc, read.rest) {
        Ok(read) => Ok(read.rest),
        Err(fault) => Err(fault),
    }
}
