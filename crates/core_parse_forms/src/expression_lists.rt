ghost use Rattle.std.specs.Prelude.{◌≡◌, ◌+◌, ◌^◌, ◌<◌, ◌≤◌, [], ◌∷◌, ◌++◌, length, IfOk, IfErr};
ghost use Rattle.std.specs.Bool.{OnTrue, OnFalse};
ghost use Rattle.core_ast.specs.Model as m;
ghost use Rattle.core_ast.specs.declared.syntax.Literal.TheVariants as l;
ghost use Rattle.core_ast.specs.Tree.{tree, all_trees};
ghost use Rattle.core_parse_grammar.specs.Grammar.{bare_expression};
ghost use Rattle.core_parse_grammar.specs.Faults.{Starts, Refuses};
ghost use Rattle.core_parse_grammar.specs.Readings.{mark as unnoted, ReadsBareExpression, ReadsElements};
ghost use Rattle.core_parse_grammar.specs.Weights.{weight};

use crate::expressions::{bare_expression, expression, other_expression};
use crate::macros::{
    Read, ReadElements, element, elements, found, list, made, nil_tail, node, read, string,
};
use core_ast::{Expr, Literal, discard_all};
use core_parse_grammar::annotations::{ReadAnnotated, annotated};
use core_parse_grammar::boxes::{discard, pushed};
use core_parse_grammar::fault::PartFault;
use core_parse_grammar::leaves::{First, mark, next, take};
use core_parse_grammar::nodes;
use core_parse_grammar::strings::push_bytes;
use core_scan::{Sort, Token, same};
use std::alloc::Global;
use type_kinds::{Boxed, List, Memory, Place};

// The empty list's node.
fn nil(alloc: Global, label: u32, place: Place) -> Result<Boxed<Expr>, Memory>
    ensures { IfOk result (λ made. tree made ≡ m.literal (unnoted label place) l.Nil) }
{
    nodes::literal(alloc, mark(label, place), Literal::Nil)
}

/// A string that has bytes: the list of them.
pub fn string<'a>(
    alloc: Global,
    tokens: &'a [Token],
    first: First<'a>,
    depth: u32,
    label: u32,
) -> Result<Read<'a, Boxed<Expr>>, PartFault>
    requires shallow { depth ≤ 399 }
    requires labels { label + weight tokens.now < 2 ^ 32 }
    requires starts { Starts tokens.now first.token.now first.sort first.place first.rest.now }
    requires shorter { length first.rest.now + 1 ≡ length tokens.now }
    requires lighter { weight first.rest.now + 2 ≤ weight tokens.now }
    requires sort { first.sort ≡ Sort.Text }
    ensures ok { IfOk result (λ r. ReadsBareExpression depth label tokens.now (tree r.value) r.rest.now r.label) }
    ensures labels { IfOk result (λ r. r.label + weight r.rest.now ≤ label + weight tokens.now) }
    ensures shorter { IfOk result (λ r. length r.rest.now < length tokens.now) }
    ensures err { IfErr result (λ e. Refuses (bare_expression depth) tokens.now e) }
{
    string!(push_bytes(alloc, first, label), nodes::listed, discard_all)
}

/// [ ], [ expressions ] and [ expressions | expression ].
#[cycle(expressions)]
#[inline(never)]
pub fn list<'a>(
    alloc: Global,
    tokens: &'a [Token],
    first: First<'a>,
    depth: u32,
    label: u32,
) -> Result<Read<'a, Boxed<Expr>>, PartFault>
    requires shallow { depth ≤ 400 }
    requires labels { label + weight tokens.now < 2 ^ 32 }
    requires starts { Starts tokens.now first.token.now first.sort first.place first.rest.now }
    requires shorter { length first.rest.now + 1 ≡ length tokens.now }
    requires lighter { weight first.rest.now + 2 ≤ weight tokens.now }
    requires sort { first.sort ≡ Sort.OpenSquare }
    ensures ok { IfOk result (λ r. ReadsBareExpression depth label tokens.now (tree r.value) r.rest.now r.label) }
    ensures labels { IfOk result (λ r. r.label + weight r.rest.now ≤ label + weight tokens.now) }
    ensures shorter { IfOk result (λ r. length r.rest.now < length tokens.now) }
    ensures err { IfErr result (λ e. Refuses (bare_expression depth) tokens.now e) }
{
    list!(
        elements(alloc, tokens, first, depth, label),
        nodes::listed,
        discard_all,
        discard
    )
}

// The elements of a list and its tail, up to the brackets that close it. A tail that is a list without
// annotation brackets goes into the list.
#[cycle(expressions)]
#[inline(never)]
fn elements<'a>(
    alloc: Global,
    tokens: &'a [Token],
    first: First<'a>,
    second: First<'a>,
    depth: u32,
    label: u32,
) -> Result<ReadElements<'a, Expr>, PartFault>
    requires shallow { depth ≤ 400 }
    requires labels { label + weight tokens.now < 2 ^ 32 }
    requires starts { Starts tokens.now first.token.now first.sort first.place first.rest.now }
    requires shorter { length first.rest.now + 1 ≡ length tokens.now }
    requires lighter { weight first.rest.now + 2 ≤ weight tokens.now }
    requires sort { first.sort ≡ Sort.OpenSquare }
    requires goes_on { Starts first.rest.now second.token.now second.sort second.place second.rest.now }
    requires some { second.sort ≡ Sort.CloseSquare → ⊥ }
    ensures ok { IfOk result (λ r. ReadsElements depth label first.entry.place tokens.now r.pending (all_trees r.items) (tree r.tail) r.rest.now r.label) }
    ensures labels { IfOk result (λ r. r.label + weight r.rest.now ≤ label + weight tokens.now) }
    ensures shorter { IfOk result (λ r. length r.rest.now < length tokens.now) }
    ensures err { IfErr result (λ e. Refuses (bare_expression depth) tokens.now e) }
{
    elements!(
        expression(alloc, first, depth, label),
        other_expression,
        push_bytes,
        discard_all,
        |items, bar, behind, next_label, pending| {
            read!(expr, rest, label in bare_expression(alloc, behind.rest, depth + 1, next_label), discard_all(items));
            match annotated(alloc, expr, rest) {
                Ok(ReadAnnotated { expr, rest }) => Ok(ReadElements {
                    items,
                    tail: expr,
                    pending: pending + 1,
                    rest,
                    label,
                }),
                Err(fault) => {
                    discard_all(items);
                    Err(fault)
                }
            }
        }
    )
}
