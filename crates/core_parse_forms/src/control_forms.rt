ghost use Rattle.std.specs.Prelude.{◌≡◌, ◌+◌, ◌^◌, ◌<◌, ◌≤◌, length, IfOk, IfErr};
ghost use Rattle.core_ast.specs.Tree.{tree};
ghost use Rattle.core_parse_grammar.specs.Grammar.{other_expression};
ghost use Rattle.core_parse_grammar.specs.Faults.{Starts, Refuses};
ghost use Rattle.core_parse_grammar.specs.Readings.{ReadsOtherExpression};
ghost use Rattle.core_parse_grammar.specs.Weights.{weight};

use crate::clauses::{ReadClause, clause, clauses};
use crate::expressions::expression;
use crate::macros::{Read, found, made, node, read};
use core_ast::{Expr, TryOf, discard_clauses};
use core_parse_grammar::boxes::discard;
use core_parse_grammar::fault::PartFault;
use core_parse_grammar::leaves::{First, mark, take};
use core_parse_grammar::nodes;
use core_parse_grammar::part_nodes::with_clause;
use core_parse_grammar::variables::variables;
use core_scan::{Sort, Token};
use std::alloc::Global;
use type_kinds::{Boxed, List, Memory};

// case expression of clauses end, with a clause at least
#[cycle(expressions)]
#[inline(never)]
pub fn case<'a>(
    alloc: Global,
    tokens: &'a [Token],
    first: First<'a>,
    depth: u32,
    label: u32,
) -> Result<Read<'a, Boxed<Expr>>, PartFault>
    requires shallow { depth ≤ 400 }
    requires labels { label + weight tokens.now < 2 ^ 32 }
    requires starts { Starts tokens.now first.token.now first.sort first.place first.rest.now }
    requires shorter { length first.rest.now + 1 ≡ length tokens.now }
    requires lighter { weight first.rest.now + 2 ≤ weight tokens.now }
    requires sort { first.sort ≡ Sort.Case }
    ensures ok { IfOk result (λ r. ReadsOtherExpression depth label tokens.now (tree r.value) r.rest.now r.label) }
    ensures labels { IfOk result (λ r. r.label + weight r.rest.now ≤ label + weight tokens.now) }
    ensures shorter { IfOk result (λ r. length r.rest.now < length tokens.now) }
    ensures err { IfErr result (λ e. Refuses (other_expression depth) tokens.now e) }
{
    let mark = mark(label, first.place);
    read!(argument, rest, label in expression(alloc, first.rest, depth + 1, label + 1));
    let rest = found!(take(rest, Sort::Of), discard(argument));
    let ReadClause {
        mark: own_mark,
        patterns,
        guard,
        body,
        rest,
        label,
    } = found!(clause(alloc, rest, depth + 1, label), discard(argument));
    let items = made!(
        with_clause(List::new(alloc), own_mark, patterns, guard, body),
        discard(argument)
    );
    read!(items, rest, label in clauses(alloc, rest, Sort::End, items, depth + 1, label), discard(argument));
    node!(nodes::case(alloc, mark, argument, items), rest, label)
}

// try expression of variables -> expression catch variables -> expression
#[cycle(expressions)]
#[inline(never)]
pub fn try_expression<'a>(
    alloc: Global,
    tokens: &'a [Token],
    first: First<'a>,
    depth: u32,
    label: u32,
) -> Result<Read<'a, Boxed<Expr>>, PartFault>
    requires shallow { depth ≤ 400 }
    requires labels { label + weight tokens.now < 2 ^ 32 }
    requires starts { Starts tokens.now first.token.now first.sort first.place first.rest.now }
    requires shorter { length first.rest.now + 1 ≡ length tokens.now }
    requires lighter { weight first.rest.now + 2 ≤ weight tokens.now }
    requires sort { first.sort ≡ Sort.Try }
    ensures ok { IfOk result (λ r. ReadsOtherExpression depth label tokens.now (tree r.value) r.rest.now r.label) }
    ensures labels { IfOk result (λ r. r.label + weight r.rest.now ≤ label + weight tokens.now) }
    ensures shorter { IfOk result (λ r. length r.rest.now < length tokens.now) }
    ensures err { IfErr result (λ e. Refuses (other_expression depth) tokens.now e) }
{
    let mark = mark(label, first.place);
    read!(arg, rest, label in expression(alloc, first.rest, depth + 1, label + 1));
    let rest = found!(take(rest, Sort::Of), discard(arg));
    let vars = found!(variables(alloc, rest), discard(arg));
    let rest = found!(take(vars.rest, Sort::Arrow), discard(arg));
    read!(body, rest, label in expression(alloc, rest, depth + 1, label), discard(arg));
    let rest = found!(take(rest, Sort::Catch), discard(arg), discard(body));
    let catch_vars = found!(variables(alloc, rest), discard(arg), discard(body));
    let rest = found!(
        take(catch_vars.rest, Sort::Arrow),
        discard(arg),
        discard(body)
    );
    read!(handler, rest, label in expression(alloc, rest, depth + 1, label), discard(arg), discard(body));
    let parts = TryOf {
        arg,
        vars: vars.variables,
        body,
        catch_vars: catch_vars.variables,
        handler,
    };
    node!(nodes::try_(alloc, mark, parts), rest, label)
}

// receive clauses after expression -> expression
#[cycle(expressions)]
#[inline(never)]
pub fn receive<'a>(
    alloc: Global,
    tokens: &'a [Token],
    first: First<'a>,
    depth: u32,
    label: u32,
) -> Result<Read<'a, Boxed<Expr>>, PartFault>
    requires shallow { depth ≤ 400 }
    requires labels { label + weight tokens.now < 2 ^ 32 }
    requires starts { Starts tokens.now first.token.now first.sort first.place first.rest.now }
    requires shorter { length first.rest.now + 1 ≡ length tokens.now }
    requires lighter { weight first.rest.now + 2 ≤ weight tokens.now }
    requires sort { first.sort ≡ Sort.Receive }
    ensures ok { IfOk result (λ r. ReadsOtherExpression depth label tokens.now (tree r.value) r.rest.now r.label) }
    ensures labels { IfOk result (λ r. r.label + weight r.rest.now ≤ label + weight tokens.now) }
    ensures shorter { IfOk result (λ r. length r.rest.now < length tokens.now) }
    ensures err { IfErr result (λ e. Refuses (other_expression depth) tokens.now e) }
{
    let mark = mark(label, first.place);
    read!(items, rest, label in clauses(alloc, first.rest, Sort::After, List::new(alloc), depth + 1, label + 1));
    read!(timeout, rest, label in expression(alloc, rest, depth + 1, label), discard_clauses(items));
    let rest = found!(
        take(rest, Sort::Arrow),
        discard_clauses(items),
        discard(timeout)
    );
    read!(action, rest, label in expression(alloc, rest, depth + 1, label), discard_clauses(items), discard(timeout));
    node!(
        nodes::receive(alloc, mark, items, timeout, action),
        rest,
        label
    )
}

// catch expression
#[cycle(expressions)]
#[inline(never)]
pub fn catch<'a>(
    alloc: Global,
    tokens: &'a [Token],
    first: First<'a>,
    depth: u32,
    label: u32,
) -> Result<Read<'a, Boxed<Expr>>, PartFault>
    requires shallow { depth ≤ 400 }
    requires labels { label + weight tokens.now < 2 ^ 32 }
    requires starts { Starts tokens.now first.token.now first.sort first.place first.rest.now }
    requires shorter { length first.rest.now + 1 ≡ length tokens.now }
    requires lighter { weight first.rest.now + 2 ≤ weight tokens.now }
    requires sort { first.sort ≡ Sort.Catch }
    ensures ok { IfOk result (λ r. ReadsOtherExpression depth label tokens.now (tree r.value) r.rest.now r.label) }
    ensures labels { IfOk result (λ r. r.label + weight r.rest.now ≤ label + weight tokens.now) }
    ensures shorter { IfOk result (λ r. length r.rest.now < length tokens.now) }
    ensures err { IfErr result (λ e. Refuses (other_expression depth) tokens.now e) }
{
    let mark = mark(label, first.place);
    read!(body, rest, label in expression(alloc, first.rest, depth + 1, label + 1));
    node!(nodes::catch(alloc, mark, body), rest, label)
}
