ghost use Rattle.std.specs.Prelude.{◌≡◌, ◌+◌, ◌^◌, ◌<◌, ◌≤◌, true, length, IfOk, IfErr};
ghost use Rattle.core_ast.specs.Tree.{tree, all_defs, def_tree};
ghost use Rattle.core_parse_grammar.specs.Grammar.{definition as definition_of, definitions as definitions_of, function as function_of};
ghost use Rattle.core_parse_grammar.specs.Faults.{Refuses};
ghost use Rattle.core_parse_forms.specs.steps.Clauses.{ends_definitions};
ghost use Rattle.core_parse_forms.specs.steps.Definitions.{ReadsFunction, ReadsNotedFunction, RefusesNotedFunction};
ghost use Rattle.core_parse_grammar.specs.Readings.{ReadsDefinition, ReadsDefinitions};
ghost use Rattle.core_parse_grammar.specs.Weights.{weight};

use crate::expressions::expression;
use crate::macros::{Read, answer, found, read};
use core_ast::{Expr, FunDef, FunDefOf, FunOf, Mark, VarName, discard_functions};
use core_parse_grammar::annotations::annotation;
use core_parse_grammar::boxes::{added, discard};
use core_parse_grammar::fault::PartFault;
use core_parse_grammar::leaves::{mark, next, take};
use core_parse_grammar::names::annotated_function_name;
use core_parse_grammar::variables::variables_to;
use core_scan::{Sort, Token, same};
use std::alloc::Global;
use type_kinds::{Boxed, List, Memory};

// The fun of a definition, and what follows it.
struct ReadFunction<'a> {
    mark: Mark,
    params: List<VarName>,
    body: Boxed<Expr>,
    rest: &'a [Token],
    label: u32,
}

/// Definitions up to and with the token that closes them.
#[cycle(expressions)]
#[inline(never)]
pub fn definitions<'a>(
    alloc: Global,
    tokens: &'a [Token],
    close: Sort,
    depth: u32,
    label: u32,
) -> Result<Read<'a, List<FunDef>>, PartFault>
    requires closes { ends_definitions close ≡ true }
    requires shallow { depth ≤ 401 }
    requires labels { label + weight tokens.now < 2 ^ 32 }
    ensures ok { IfOk result (λ r. ReadsDefinitions close depth label tokens.now (all_defs r.value) r.rest.now r.label) }
    ensures labels { IfOk result (λ r. r.label + weight r.rest.now ≤ label + weight tokens.now) }
    ensures shorter { IfOk result (λ r. length r.rest.now < length tokens.now) }
    ensures err { IfErr result (λ e. Refuses (definitions_of close depth) tokens.now e) }
{
    let mut items = List::new(alloc);
    let mut left = tokens;
    let mut next_label = label;
    loop {
        let first = found!(next(left), discard_functions(items));
        if same(first.sort, close) {
            return Ok(Read {
                value: items,
                rest: first.rest,
                label: next_label,
            });
        }
        read!(item, rest, label in definition(alloc, left, depth, next_label), discard_functions(items));
        if !added(&mut items, item) {
            discard_functions(items);
            return Err(PartFault::Memory);
        }
        left = rest;
        next_label = label;
    }
}

// function_name = fun, each with or without annotation brackets
#[cycle(expressions)]
#[inline(never)]
fn definition<'a>(
    alloc: Global,
    tokens: &'a [Token],
    depth: u32,
    label: u32,
) -> Result<Read<'a, FunDef>, PartFault>
    requires shallow { depth ≤ 401 }
    requires labels { label + weight tokens.now < 2 ^ 32 }
    ensures ok { IfOk result (λ r. ReadsDefinition depth label tokens.now (def_tree r.value) r.rest.now r.label) }
    ensures labels { IfOk result (λ r. r.label + weight r.rest.now ≤ label + weight tokens.now) }
    ensures shorter { IfOk result (λ r. length r.rest.now < length tokens.now) }
    ensures err { IfErr result (λ e. Refuses (definition_of depth) tokens.now e) }
{
    let name = found!(annotated_function_name(alloc, tokens));
    let rest = found!(take(name.rest, Sort::Equals));
    let ReadFunction {
        mark,
        params,
        body,
        rest,
        label,
    } = found!(noted_function(alloc, rest, depth, label));
    let definition = FunDefOf {
        name: name.name,
        mark,
        fun: FunOf { params, body },
    };
    Ok(Read {
        value: definition,
        rest,
        label,
    })
}

// The fun of a definition, with or without annotation brackets.
#[cycle(expressions)]
#[inline(never)]
fn noted_function<'a>(
    alloc: Global,
    tokens: &'a [Token],
    depth: u32,
    label: u32,
) -> Result<ReadFunction<'a>, PartFault>
    requires shallow { depth ≤ 401 }
    requires labels { label + weight tokens.now < 2 ^ 32 }
    ensures ok { IfOk result (λ r. ReadsNotedFunction depth label tokens.now r.mark r.params (tree r.body) r.rest.now r.label) }
    ensures labels { IfOk result (λ r. r.label + weight r.rest.now ≤ label + weight tokens.now) }
    ensures shorter { IfOk result (λ r. length r.rest.now < length tokens.now) }
    ensures err { IfErr result (λ e. RefusesNotedFunction depth tokens.now e) }
{
    let first = found!(next(tokens));
    if !same(first.sort, Sort::OpenRound) {
        return answer!(function(alloc, tokens, depth, label));
    }
    let ReadFunction {
        mark,
        params,
        body,
        rest,
        label,
    } = found!(function(alloc, first.rest, depth, label));
    match annotation(alloc, rest) {
        Ok(found) => Ok(ReadFunction {
            mark: mark.with_note(found.note),
            params,
            body,
            rest: found.rest,
            label,
        }),
        Err(fault) => {
            discard(body);
            Err(fault)
        }
    }
}

// fun ( variables ) -> expression
#[cycle(expressions)]
#[inline(never)]
fn function<'a>(
    alloc: Global,
    tokens: &'a [Token],
    depth: u32,
    label: u32,
) -> Result<ReadFunction<'a>, PartFault>
    requires shallow { depth ≤ 401 }
    requires labels { label + weight tokens.now < 2 ^ 32 }
    ensures ok { IfOk result (λ r. ReadsFunction depth label tokens.now r.mark r.params (tree r.body) r.rest.now r.label) }
    ensures labels { IfOk result (λ r. r.label + weight r.rest.now ≤ label + weight tokens.now) }
    ensures shorter { IfOk result (λ r. length r.rest.now < length tokens.now) }
    ensures err { IfErr result (λ e. Refuses (function_of depth) tokens.now e) }
{
    let first = found!(next(tokens));
    if !same(first.sort, Sort::Fun) {
        return Err(PartFault::Syntax(first.place));
    }
    let rest = found!(take(first.rest, Sort::OpenRound));
    let params = found!(variables_to(alloc, rest, Sort::CloseRound));
    let rest = found!(take(params.rest, Sort::Arrow));
    read!(body, rest, next_label in expression(alloc, rest, depth, label + 1));
    Ok(ReadFunction {
        mark: mark(label, first.place),
        params: params.variables,
        body,
        rest,
        label: next_label,
    })
}
