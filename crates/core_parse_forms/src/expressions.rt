ghost use Rattle.std.specs.Prelude.{◌≡◌, ◌+◌, ◌^◌, ◌<◌, ◌≤◌, true, length, IfOk, IfErr};
ghost use Rattle.core_ast.specs.Tree.{tree, all_trees};
ghost use Rattle.core_parse_grammar.specs.Grammar.{the, many, expression as expression_of, bare_expression as bare_expression_of};
ghost use Rattle.core_parse_grammar.specs.Grammar.{other_expression as other_expression_of};
ghost use Rattle.core_parse_grammar.specs.Faults.{Starts, Refuses, closing};
ghost use Rattle.core_parse_grammar.specs.Readings.{ReadsExpression, ReadsBareExpression, ReadsOtherExpression, ReadsExpressions};
ghost use Rattle.core_parse_grammar.specs.Starters.{starts_expression, starts_literal};
ghost use Rattle.core_parse_grammar.specs.Weights.{weight};

use crate::binaries::binary;
use crate::chains::{chain, closed};
use crate::control_forms::{case, catch, receive, try_expression};
use crate::expression_lists::{list, string};
use crate::forms::{apply, call, fun_or_external, letrec, primop, tuple, values};
use crate::macros::{Read, answer, closed_chain, found, made, many, node, read};
use crate::maps::map;
use core_ast::{Expr, FunName, Literal, discard_all};
use core_parse_grammar::annotations::{ReadAnnotated, annotated};
use core_parse_grammar::boxes::kept;
use core_parse_grammar::fault::PartFault;
use core_parse_grammar::leaves::{First, arity_of, is_too_deep, mark, next, take, text_of};
use core_parse_grammar::literals::literal_of;
use core_parse_grammar::nodes;
use core_scan::{Sort, Token, same, sort_of};
use std::alloc::Global;
use type_kinds::{Boxed, List, Memory};

// Whether an expression without annotation brackets begins with a token of this sort.
fn starts(sort: Sort) -> bool
    ensures { result ≡ starts_expression sort }
{
    match sort {
        Sort::Variable => true,
        Sort::Atom => true,
        Sort::Text => true,
        Sort::OpenSquare => true,
        Sort::OpenCurly => true,
        Sort::Less => true,
        Sort::OpenBinary => true,
        Sort::OpenMap => true,
        Sort::Fun => true,
        Sort::Let => true,
        Sort::Do => true,
        Sort::Case => true,
        Sort::Letrec => true,
        Sort::Apply => true,
        Sort::Call => true,
        Sort::Primop => true,
        Sort::Try => true,
        Sort::Receive => true,
        Sort::Catch => true,
        other => is_literal(other),
    }
}

/// Whether a token of this sort is a literal by itself, atoms aside.
pub fn is_literal(sort: Sort) -> bool
    ensures { result ≡ starts_literal sort }
{
    match sort {
        Sort::Small => true,
        Sort::Integer => true,
        Sort::Float => true,
        Sort::Char => true,
        Sort::EmptyText => true,
        _ => false,
    }
}

/// The expression that comes first, with or without annotation brackets. A list without them is read from
/// here, and not from `bare_expression`, so that the frame of a list's reader is in the way of lists alone.
#[cycle(expressions)]
#[inline(never)]
pub fn expression<'a>(
    alloc: Global,
    tokens: &'a [Token],
    depth: u32,
    label: u32,
) -> Result<Read<'a, Boxed<Expr>>, PartFault>
    requires shallow { depth ≤ 401 }
    requires labels { label + weight tokens.now < 2 ^ 32 }
    ensures ok { IfOk result (λ r. ReadsExpression depth label tokens.now (tree r.value) r.rest.now r.label) }
    ensures labels { IfOk result (λ r. r.label + weight r.rest.now ≤ label + weight tokens.now) }
    ensures shorter { IfOk result (λ r. length r.rest.now < length tokens.now) }
    ensures shallow { IfOk result (λ r. depth ≤ 400) }
    ensures err { IfErr result (λ e. Refuses (expression_of depth) tokens.now e) }
{
    let first = found!(next(tokens));
    if same(first.sort, Sort::OpenSquare) {
        if is_too_deep(first.sort, depth) {
            return Err(PartFault::TooDeep(first.place));
        }
        return answer!(list(alloc, tokens, first, depth, label));
    }
    if !same(first.sort, Sort::OpenRound) {
        return answer!(bare_expression(alloc, tokens, depth, label));
    }
    read!(expr, rest, next_label in bare_expression(alloc, first.rest, depth, label));
    match annotated(alloc, expr, rest) {
        Ok(ReadAnnotated { expr, rest }) => Ok(Read {
            value: expr,
            rest,
            label: next_label,
        }),
        Err(fault) => Err(fault),
    }
}

/// The expression that comes first, without annotation brackets.
#[cycle(expressions)]
#[inline(never)]
pub fn bare_expression<'a>(
    alloc: Global,
    tokens: &'a [Token],
    depth: u32,
    label: u32,
) -> Result<Read<'a, Boxed<Expr>>, PartFault>
    requires shallow { depth ≤ 401 }
    requires labels { label + weight tokens.now < 2 ^ 32 }
    ensures ok { IfOk result (λ r. ReadsBareExpression depth label tokens.now (tree r.value) r.rest.now r.label) }
    ensures labels { IfOk result (λ r. r.label + weight r.rest.now ≤ label + weight tokens.now) }
    ensures shorter { IfOk result (λ r. length r.rest.now < length tokens.now) }
    ensures shallow { IfOk result (λ r. depth ≤ 400) }
    ensures err { IfErr result (λ e. Refuses (bare_expression_of depth) tokens.now e) }
{
    let first = found!(next(tokens));
    if is_too_deep(first.sort, depth) {
        if starts(first.sort) {
            return Err(PartFault::TooDeep(first.place));
        }
        return Err(PartFault::Syntax(first.place));
    }
    if same(first.sort, Sort::Text) {
        return answer!(string(alloc, tokens, first, depth, label));
    }
    if same(first.sort, Sort::OpenSquare) {
        return answer!(list(alloc, tokens, first, depth, label));
    }
    answer!(other_expression(alloc, tokens, depth, label))
}

/// The expression that comes first, without annotation brackets, where it is no list with elements.
#[cycle(expressions)]
#[inline(never)]
pub fn other_expression<'a>(
    alloc: Global,
    tokens: &'a [Token],
    depth: u32,
    label: u32,
) -> Result<Read<'a, Boxed<Expr>>, PartFault>
    requires shallow { depth ≤ 400 }
    requires labels { label + weight tokens.now < 2 ^ 32 }
    ensures ok { IfOk result (λ r. ReadsOtherExpression depth label tokens.now (tree r.value) r.rest.now r.label) }
    ensures labels { IfOk result (λ r. r.label + weight r.rest.now ≤ label + weight tokens.now) }
    ensures shorter { IfOk result (λ r. length r.rest.now < length tokens.now) }
    ensures err { IfErr result (λ e. Refuses (other_expression_of depth) tokens.now e) }
{
    let first = found!(next(tokens));
    if is_literal(first.sort) {
        return match literal_of(alloc, first.token) {
            Ok(value) => node!(
                nodes::literal(alloc, mark(label, first.place), value),
                first.rest,
                label + 1
            ),
            Err(Memory) => Err(PartFault::Memory),
        };
    }
    match first.sort {
        Sort::Variable => match text_of(alloc, first.token) {
            Ok(name) => node!(
                nodes::variable(alloc, mark(label, first.place), name),
                first.rest,
                label + 1
            ),
            Err(Memory) => Err(PartFault::Memory),
        },
        Sort::Atom => atom_or_name(alloc, tokens, first, depth, label),
        Sort::OpenSquare => match take(first.rest, Sort::CloseSquare) {
            Ok(rest) => node!(
                nodes::literal(alloc, mark(label, first.place), Literal::Nil),
                rest,
                label + 1
            ),
            Err(fault) => Err(fault),
        },
        Sort::OpenCurly => tuple(alloc, tokens, first, depth, label),
        Sort::Less => values(alloc, tokens, first, depth, label),
        Sort::Fun => fun_or_external(alloc, tokens, first, depth, label),
        Sort::Letrec => letrec(alloc, tokens, first, depth, label),
        Sort::Catch => catch(alloc, tokens, first, depth, label),
        Sort::Primop => primop(alloc, tokens, first, depth, label),
        Sort::Apply => apply(alloc, tokens, first, depth, label),
        Sort::Call => call(alloc, tokens, first, depth, label),
        Sort::Case => case(alloc, tokens, first, depth, label),
        Sort::Try => try_expression(alloc, tokens, first, depth, label),
        Sort::Receive => receive(alloc, tokens, first, depth, label),
        Sort::Let => closed_chain!(alloc, tokens, first, depth, label),
        Sort::Do => closed_chain!(alloc, tokens, first, depth, label),
        Sort::OpenBinary => binary(alloc, tokens, first, depth, label),
        Sort::OpenMap => map(alloc, tokens, first, depth, label),
        _ => Err(PartFault::Syntax(first.place)),
    }
}

// An atom, or a function's name where a slash follows.
fn atom_or_name<'a>(
    alloc: Global,
    tokens: &'a [Token],
    first: First<'a>,
    depth: u32,
    label: u32,
) -> Result<Read<'a, Boxed<Expr>>, PartFault>
    requires shallow { depth ≤ 400 }
    requires labels { label + weight tokens.now < 2 ^ 32 }
    requires starts { Starts tokens.now first.token.now first.sort first.place first.rest.now }
    requires shorter { length first.rest.now + 1 ≡ length tokens.now }
    requires lighter { weight first.rest.now + 2 ≤ weight tokens.now }
    requires sort { first.sort ≡ Sort.Atom }
    ensures ok { IfOk result (λ r. ReadsOtherExpression depth label tokens.now (tree r.value) r.rest.now r.label) }
    ensures labels { IfOk result (λ r. r.label + weight r.rest.now ≤ label + weight tokens.now) }
    ensures shorter { IfOk result (λ r. length r.rest.now < length tokens.now) }
    ensures err { IfErr result (λ e. Refuses (other_expression_of depth) tokens.now e) }
{
    let name = made!(text_of(alloc, first.token));
    let mark = mark(label, first.place);
    let Some((second, after)) = first.rest.split_first() else {
        return node!(
            nodes::literal(alloc, mark, Literal::Atom(name)),
            first.rest,
            label + 1
        );
    };
    if !same(sort_of(second), Sort::Slash) {
        return node!(
            nodes::literal(alloc, mark, Literal::Atom(name)),
            first.rest,
            label + 1
        );
    }
    let third = found!(next(after));
    if !same(third.sort, Sort::Small) {
        return Err(PartFault::Syntax(third.place));
    }
    let name = FunName {
        name,
        arity: arity_of(third.token),
    };
    node!(nodes::local(alloc, mark, name), third.rest, label + 1)
}

/// Expressions with commas between them, up to and with the token that closes them.
#[cycle(expressions)]
#[inline(never)]
pub fn expressions<'a>(
    alloc: Global,
    tokens: &'a [Token],
    close: Sort,
    depth: u32,
    label: u32,
) -> Result<Read<'a, List<Expr>>, PartFault>
    requires closes { closing close ≡ true }
    requires shallow { depth ≤ 401 }
    requires labels { label + weight tokens.now < 2 ^ 32 }
    ensures ok { IfOk result (λ r. ReadsExpressions close depth label tokens.now (all_trees r.value) r.rest.now r.label) }
    ensures labels { IfOk result (λ r. r.label + weight r.rest.now ≤ label + weight tokens.now) }
    ensures shorter { IfOk result (λ r. length r.rest.now < length tokens.now) }
    ensures err { IfErr result (λ e. Refuses (many close (the (expression_of depth))) tokens.now e) }
{
    many!(expression(alloc, tokens, depth, label) => Read { value }, close, kept, discard_all)
}
