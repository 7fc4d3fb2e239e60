ghost use Rattle.std.specs.Prelude.{◌≡◌, ◌+◌, ◌^◌, ◌<◌, ◌≤◌, false, length, IfOk, IfErr};
ghost use Rattle.core_ast.specs.Tree.{tree};
ghost use Rattle.core_parse_grammar.specs.Grammar.{other_expression};
ghost use Rattle.core_parse_grammar.specs.Faults.{Starts, Takes, Refuses};
ghost use Rattle.core_parse_grammar.specs.Readings.{ReadsOtherExpression};
ghost use Rattle.core_parse_grammar.specs.Starters.{opens_with};
ghost use Rattle.core_parse_grammar.specs.Weights.{weight};

use crate::definitions::definitions;
use crate::expressions::{expression, expressions};
use crate::macros::{Read, found, node, read};
use core_ast::{Expr, discard_functions};
use core_parse_grammar::boxes::discard;
use core_parse_grammar::fault::PartFault;
use core_parse_grammar::leaves::{First, mark, next, take, take_atom};
use core_parse_grammar::names::function_name;
use core_parse_grammar::nodes;
use core_parse_grammar::variables::variables_to;
use core_scan::{Sort, Token, same};
use std::alloc::Global;
use type_kinds::{Boxed, Memory};

// fun ( variables ) -> expression, or fun atom : function_name
#[cycle(expressions)]
#[inline(never)]
pub fn fun_or_external<'a>(
    alloc: Global,
    tokens: &'a [Token],
    first: First<'a>,
    depth: u32,
    label: u32,
) -> Result<Read<'a, Boxed<Expr>>, PartFault>
    requires shallow { depth ≤ 400 }
    requires labels { label + weight tokens.now < 2 ^ 32 }
    requires starts { Starts tokens.now first.token.now first.sort first.place first.rest.now }
    requires shorter { length first.rest.now + 1 ≡ length tokens.now }
    requires lighter { weight first.rest.now + 2 ≤ weight tokens.now }
    requires sort { first.sort ≡ Sort.Fun }
    ensures ok { IfOk result (λ r. ReadsOtherExpression depth label tokens.now (tree r.value) r.rest.now r.label) }
    ensures labels { IfOk result (λ r. r.label + weight r.rest.now ≤ label + weight tokens.now) }
    ensures shorter { IfOk result (λ r. length r.rest.now < length tokens.now) }
    ensures err { IfErr result (λ e. Refuses (other_expression depth) tokens.now e) }
{
    let second = found!(next(first.rest));
    if same(second.sort, Sort::OpenRound) {
        return fun(alloc, tokens, first, second.rest, depth, label);
    }
    external(alloc, tokens, first, depth, label)
}

// fun ( variables ) -> expression, behind the bracket
#[cycle(expressions)]
#[inline(never)]
fn fun<'a>(
    alloc: Global,
    tokens: &'a [Token],
    first: First<'a>,
    behind: &'a [Token],
    depth: u32,
    label: u32,
) -> Result<Read<'a, Boxed<Expr>>, PartFault>
    requires shallow { depth ≤ 400 }
    requires labels { label + weight tokens.now < 2 ^ 32 }
    requires starts { Starts tokens.now first.token.now first.sort first.place first.rest.now }
    requires shorter { length first.rest.now + 1 ≡ length tokens.now }
    requires lighter { weight first.rest.now + 2 ≤ weight tokens.now }
    requires sort { first.sort ≡ Sort.Fun }
    requires bracket { Takes (Sort.OpenRound) first.rest.now behind.now }
    requires behind { weight behind.now + 2 ≤ weight first.rest.now }
    ensures ok { IfOk result (λ r. ReadsOtherExpression depth label tokens.now (tree r.value) r.rest.now r.label) }
    ensures labels { IfOk result (λ r. r.label + weight r.rest.now ≤ label + weight tokens.now) }
    ensures shorter { IfOk result (λ r. length r.rest.now < length tokens.now) }
    ensures err { IfErr result (λ e. Refuses (other_expression depth) tokens.now e) }
{
    let mark = mark(label, first.place);
    let params = found!(variables_to(alloc, behind, Sort::CloseRound));
    let rest = found!(take(params.rest, Sort::Arrow));
    read!(body, rest, label in expression(alloc, rest, depth + 1, label + 1));
    node!(
        nodes::function(alloc, mark, params.variables, body),
        rest,
        label
    )
}

// fun atom : function_name
fn external<'a>(
    alloc: Global,
    tokens: &'a [Token],
    first: First<'a>,
    depth: u32,
    label: u32,
) -> Result<Read<'a, Boxed<Expr>>, PartFault>
    requires shallow { depth ≤ 400 }
    requires labels { label + weight tokens.now < 2 ^ 32 }
    requires starts { Starts tokens.now first.token.now first.sort first.place first.rest.now }
    requires shorter { length first.rest.now + 1 ≡ length tokens.now }
    requires lighter { weight first.rest.now + 2 ≤ weight tokens.now }
    requires sort { first.sort ≡ Sort.Fun }
    requires once { opens_with (Sort.OpenRound) first.rest.now ≡ false }
    ensures ok { IfOk result (λ r. ReadsOtherExpression depth label tokens.now (tree r.value) r.rest.now r.label) }
    ensures labels { IfOk result (λ r. r.label + weight r.rest.now ≤ label + weight tokens.now) }
    ensures shorter { IfOk result (λ r. length r.rest.now < length tokens.now) }
    ensures err { IfErr result (λ e. Refuses (other_expression depth) tokens.now e) }
{
    let mark = mark(label, first.place);
    let home = found!(take_atom(alloc, first.rest));
    let rest = found!(take(home.rest, Sort::Colon));
    match function_name(alloc, rest) {
        Ok(found) => node!(
            nodes::external(alloc, mark, home.name, found.name),
            found.rest,
            label + 1
        ),
        Err(fault) => Err(fault),
    }
}

// { expressions }
#[cycle(expressions)]
#[inline(never)]
pub fn tuple<'a>(
    alloc: Global,
    tokens: &'a [Token],
    first: First<'a>,
    depth: u32,
    label: u32,
) -> Result<Read<'a, Boxed<Expr>>, PartFault>
    requires shallow { depth ≤ 400 }
    requires labels { label + weight tokens.now < 2 ^ 32 }
    requires starts { Starts tokens.now first.token.now first.sort first.place first.rest.now }
    requires shorter { length first.rest.now + 1 ≡ length tokens.now }
    requires lighter { weight first.rest.now + 2 ≤ weight tokens.now }
    requires sort { first.sort ≡ Sort.OpenCurly }
    ensures ok { IfOk result (λ r. ReadsOtherExpression depth label tokens.now (tree r.value) r.rest.now r.label) }
    ensures labels { IfOk result (λ r. r.label + weight r.rest.now ≤ label + weight tokens.now) }
    ensures shorter { IfOk result (λ r. length r.rest.now < length tokens.now) }
    ensures err { IfErr result (λ e. Refuses (other_expression depth) tokens.now e) }
{
    let mark = mark(label, first.place);
    read!(items, rest, label in expressions(alloc, first.rest, Sort::CloseCurly, depth + 1, label + 1));
    node!(nodes::tuple(alloc, mark, items), rest, label)
}

// < expressions >
#[cycle(expressions)]
#[inline(never)]
pub fn values<'a>(
    alloc: Global,
    tokens: &'a [Token],
    first: First<'a>,
    depth: u32,
    label: u32,
) -> Result<Read<'a, Boxed<Expr>>, PartFault>
    requires shallow { depth ≤ 400 }
    requires labels { label + weight tokens.now < 2 ^ 32 }
    requires starts { Starts tokens.now first.token.now first.sort first.place first.rest.now }
    requires shorter { length first.rest.now + 1 ≡ length tokens.now }
    requires lighter { weight first.rest.now + 2 ≤ weight tokens.now }
    requires sort { first.sort ≡ Sort.Less }
    ensures ok { IfOk result (λ r. ReadsOtherExpression depth label tokens.now (tree r.value) r.rest.now r.label) }
    ensures labels { IfOk result (λ r. r.label + weight r.rest.now ≤ label + weight tokens.now) }
    ensures shorter { IfOk result (λ r. length r.rest.now < length tokens.now) }
    ensures err { IfErr result (λ e. Refuses (other_expression depth) tokens.now e) }
{
    let mark = mark(label, first.place);
    read!(items, rest, label in expressions(alloc, first.rest, Sort::Greater, depth + 1, label + 1));
    node!(nodes::values(alloc, mark, items), rest, label)
}

// letrec definitions in expression
#[cycle(expressions)]
#[inline(never)]
pub fn letrec<'a>(
    alloc: Global,
    tokens: &'a [Token],
    first: First<'a>,
    depth: u32,
    label: u32,
) -> Result<Read<'a, Boxed<Expr>>, PartFault>
    requires shallow { depth ≤ 400 }
    requires labels { label + weight tokens.now < 2 ^ 32 }
    requires starts { Starts tokens.now first.token.now first.sort first.place first.rest.now }
    requires shorter { length first.rest.now + 1 ≡ length tokens.now }
    requires lighter { weight first.rest.now + 2 ≤ weight tokens.now }
    requires sort { first.sort ≡ Sort.Letrec }
    ensures ok { IfOk result (λ r. ReadsOtherExpression depth label tokens.now (tree r.value) r.rest.now r.label) }
    ensures labels { IfOk result (λ r. r.label + weight r.rest.now ≤ label + weight tokens.now) }
    ensures shorter { IfOk result (λ r. length r.rest.now < length tokens.now) }
    ensures err { IfErr result (λ e. Refuses (other_expression depth) tokens.now e) }
{
    let mark = mark(label, first.place);
    read!(items, rest, label in definitions(alloc, first.rest, Sort::In, depth + 1, label + 1));
    read!(body, rest, label in expression(alloc, rest, depth + 1, label), discard_functions(items));
    node!(nodes::letrec(alloc, mark, items, body), rest, label)
}

// apply expression ( expressions )
#[cycle(expressions)]
#[inline(never)]
pub fn apply<'a>(
    alloc: Global,
    tokens: &'a [Token],
    first: First<'a>,
    depth: u32,
    label: u32,
) -> Result<Read<'a, Boxed<Expr>>, PartFault>
    requires shallow { depth ≤ 400 }
    requires labels { label + weight tokens.now < 2 ^ 32 }
    requires starts { Starts tokens.now first.token.now first.sort first.place first.rest.now }
    requires shorter { length first.rest.now + 1 ≡ length tokens.now }
    requires lighter { weight first.rest.now + 2 ≤ weight tokens.now }
    requires sort { first.sort ≡ Sort.Apply }
    ensures ok { IfOk result (λ r. ReadsOtherExpression depth label tokens.now (tree r.value) r.rest.now r.label) }
    ensures labels { IfOk result (λ r. r.label + weight r.rest.now ≤ label + weight tokens.now) }
    ensures shorter { IfOk result (λ r. length r.rest.now < length tokens.now) }
    ensures err { IfErr result (λ e. Refuses (other_expression depth) tokens.now e) }
{
    let mark = mark(label, first.place);
    read!(operator, rest, label in expression(alloc, first.rest, depth + 1, label + 1));
    let rest = found!(take(rest, Sort::OpenRound), discard(operator));
    read!(args, rest, label in expressions(alloc, rest, Sort::CloseRound, depth + 1, label), discard(operator));
    node!(nodes::apply(alloc, mark, operator, args), rest, label)
}

// call expression : expression ( expressions )
#[cycle(expressions)]
#[inline(never)]
pub fn call<'a>(
    alloc: Global,
    tokens: &'a [Token],
    first: First<'a>,
    depth: u32,
    label: u32,
) -> Result<Read<'a, Boxed<Expr>>, PartFault>
    requires shallow { depth ≤ 400 }
    requires labels { label + weight tokens.now < 2 ^ 32 }
    requires starts { Starts tokens.now first.token.now first.sort first.place first.rest.now }
    requires shorter { length first.rest.now + 1 ≡ length tokens.now }
    requires lighter { weight first.rest.now + 2 ≤ weight tokens.now }
    requires sort { first.sort ≡ Sort.Call }
    ensures ok { IfOk result (λ r. ReadsOtherExpression depth label tokens.now (tree r.value) r.rest.now r.label) }
    ensures labels { IfOk result (λ r. r.label + weight r.rest.now ≤ label + weight tokens.now) }
    ensures shorter { IfOk result (λ r. length r.rest.now < length tokens.now) }
    ensures err { IfErr result (λ e. Refuses (other_expression depth) tokens.now e) }
{
    let mark = mark(label, first.place);
    read!(home, rest, label in expression(alloc, first.rest, depth + 1, label + 1));
    let rest = found!(take(rest, Sort::Colon), discard(home));
    read!(name, rest, label in expression(alloc, rest, depth + 1, label), discard(home));
    let rest = found!(take(rest, Sort::OpenRound), discard(home), discard(name));
    read!(args, rest, label in expressions(alloc, rest, Sort::CloseRound, depth + 1, label), discard(home), discard(name));
    node!(nodes::call(alloc, mark, home, name, args), rest, label)
}

// primop atom ( expressions )
#[cycle(expressions)]
#[inline(never)]
pub fn primop<'a>(
    alloc: Global,
    tokens: &'a [Token],
    first: First<'a>,
    depth: u32,
    label: u32,
) -> Result<Read<'a, Boxed<Expr>>, PartFault>
    requires shallow { depth ≤ 400 }
    requires labels { label + weight tokens.now < 2 ^ 32 }
    requires starts { Starts tokens.now first.token.now first.sort first.place first.rest.now }
    requires shorter { length first.rest.now + 1 ≡ length tokens.now }
    requires lighter { weight first.rest.now + 2 ≤ weight tokens.now }
    requires sort { first.sort ≡ Sort.Primop }
    ensures ok { IfOk result (λ r. ReadsOtherExpression depth label tokens.now (tree r.value) r.rest.now r.label) }
    ensures labels { IfOk result (λ r. r.label + weight r.rest.now ≤ label + weight tokens.now) }
    ensures shorter { IfOk result (λ r. length r.rest.now < length tokens.now) }
    ensures err { IfErr result (λ e. Refuses (other_expression depth) tokens.now e) }
{
    let mark = mark(label, first.place);
    let name = found!(take_atom(alloc, first.rest));
    let rest = found!(take(name.rest, Sort::OpenRound));
    read!(args, rest, label in expressions(alloc, rest, Sort::CloseRound, depth + 1, label + 1));
    node!(nodes::primop(alloc, mark, name.name, args), rest, label)
}
