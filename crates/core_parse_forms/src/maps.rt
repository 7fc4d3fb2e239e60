ghost use Rattle.std.specs.Prelude.{◌≡◌, ◌+◌, ◌^◌, ◌<◌, ◌≤◌, false, length, IfOk, IfErr};
ghost use Rattle.core_ast.specs.Tree.{tree, all_pairs};
ghost use Rattle.core_parse_grammar.specs.Grammar.{other_expression, pairs as pairs_of, pair as pair_of, bare_pair as bare_pair_of};
ghost use Rattle.core_parse_grammar.specs.Faults.{Starts, Refuses};
ghost use Rattle.core_parse_grammar.specs.Pairs.{ReadsMapPairs, ReadsUpdated, RefusesUpdated, read_pair, ReadsBarePair};
ghost use Rattle.core_parse_grammar.specs.Pairs.{ReadsValue as ReadsSuchValue, ReadsValueOf, RefusesValue, updated_tree};
ghost use Rattle.core_parse_grammar.specs.Readings.{ReadsOtherExpression, ReadsPair};
ghost use Rattle.core_parse_grammar.specs.Starters.{opens_with};
ghost use Rattle.core_parse_grammar.specs.Weights.{weight};

use crate::expressions::{bare_expression, expression};
use crate::macros::{Read, answer, found, made, node, pair, pair_in_brackets, read};
use core_ast::{Expr, MapPair, discard_pairs};
use core_parse_grammar::annotations::{ReadAnnotated, annotated, annotation};
use core_parse_grammar::boxes::discard;
use core_parse_grammar::fault::PartFault;
use core_parse_grammar::leaves::{First, mark, next, take};
use core_parse_grammar::nodes;
use core_parse_grammar::pairs::{ReadPair, ReadValue, exactness, pair_read};
use core_parse_grammar::part_nodes::with_pair;
use core_scan::{Sort, Token, same};
use std::alloc::Global;
use type_kinds::{Boxed, List, Memory};

/// The pairs of a map and the map that they update, and what follows the token that closes them.
pub struct ReadPairs<'a> {
    pub items: List<MapPair>,
    pub updated: Option<Boxed<Expr>>,
    pub rest: &'a [Token],
    pub label: u32,
}

/// ~{ pairs }~ and ~{ pairs | expression }~
#[cycle(expressions)]
#[inline(never)]
pub fn map<'a>(
    alloc: Global,
    tokens: &'a [Token],
    first: First<'a>,
    depth: u32,
    label: u32,
) -> Result<Read<'a, Boxed<Expr>>, PartFault>
    requires shallow { depth ≤ 400 }
    requires labels { label + weight tokens.now < 2 ^ 32 }
    requires starts { Starts tokens.now first.token.now first.sort first.place first.rest.now }
    requires shorter { length first.rest.now + 1 ≡ length tokens.now }
    requires lighter { weight first.rest.now + 2 ≤ weight tokens.now }
    requires sort { first.sort ≡ Sort.OpenMap }
    ensures ok { IfOk result (λ r. ReadsOtherExpression depth label tokens.now (tree r.value) r.rest.now r.label) }
    ensures labels { IfOk result (λ r. r.label + weight r.rest.now ≤ label + weight tokens.now) }
    ensures shorter { IfOk result (λ r. length r.rest.now < length tokens.now) }
    ensures err { IfErr result (λ e. Refuses (other_expression depth) tokens.now e) }
{
    let mark = mark(label, first.place);
    let ReadPairs {
        items,
        updated,
        rest,
        label,
    } = found!(pairs(alloc, first.rest, depth + 1, label + 1));
    let Some(updated) = updated else {
        return node!(nodes::new_map(alloc, mark, items), rest, label);
    };
    node!(nodes::updated_map(alloc, mark, items, updated), rest, label)
}

// Pairs with commas between them, the map that they update behind a bar, if any, and the token that
// closes them.
#[cycle(expressions)]
#[inline(never)]
fn pairs<'a>(
    alloc: Global,
    tokens: &'a [Token],
    depth: u32,
    label: u32,
) -> Result<ReadPairs<'a>, PartFault>
    requires shallow { depth ≤ 401 }
    requires labels { label + weight tokens.now < 2 ^ 32 }
    ensures ok { IfOk result (λ r. ReadsMapPairs depth label tokens.now (all_pairs r.items) (updated_tree r.updated) r.rest.now r.label) }
    ensures labels { IfOk result (λ r. r.label + weight r.rest.now ≤ label + weight tokens.now) }
    ensures shorter { IfOk result (λ r. length r.rest.now < length tokens.now) }
    ensures err { IfErr result (λ e. Refuses (pairs_of depth) tokens.now e) }
{
    let first = found!(next(tokens));
    if same(first.sort, Sort::CloseMap) {
        let items = List::new(alloc);
        return Ok(ReadPairs {
            items,
            updated: None,
            rest: first.rest,
            label,
        });
    }
    if same(first.sort, Sort::Bar) {
        let none = List::new(alloc);
        return answer!(updated_by(alloc, none, first.rest, depth, label));
    }
    let ReadPair {
        exact,
        key,
        value,
        rest: mut left,
        label: mut next_label,
    } = found!(pair(alloc, tokens, depth, label));
    let empty = List::new(alloc);
    let mut items = made!(with_pair(empty, exact, key, value));
    loop {
        let token = found!(next(left), discard_pairs(items));
        if same(token.sort, Sort::CloseMap) {
            return Ok(ReadPairs {
                items,
                updated: None,
                rest: token.rest,
                label: next_label,
            });
        }
        if same(token.sort, Sort::Bar) {
            return answer!(updated_by(alloc, items, token.rest, depth, next_label));
        }
        if !same(token.sort, Sort::Comma) {
            discard_pairs(items);
            return Err(PartFault::Syntax(token.place));
        }
        let ReadPair {
            exact,
            key,
            value,
            rest,
            label,
        } = found!(
            pair(alloc, token.rest, depth, next_label),
            discard_pairs(items)
        );
        items = made!(with_pair(items, exact, key, value));
        left = rest;
        next_label = label;
    }
}

// The map that these pairs update, behind the bar, and the token that closes them.
#[cycle(expressions)]
#[inline(never)]
fn updated_by<'a>(
    alloc: Global,
    items: List<MapPair>,
    tokens: &'a [Token],
    depth: u32,
    label: u32,
) -> Result<ReadPairs<'a>, PartFault>
    requires shallow { depth ≤ 401 }
    requires labels { label + weight tokens.now < 2 ^ 32 }
    ensures items { IfOk result (λ r. all_pairs r.items ≡ all_pairs items) }
    ensures ok { IfOk result (λ r. ReadsUpdated depth label tokens.now (updated_tree r.updated) r.rest.now r.label) }
    ensures labels { IfOk result (λ r. r.label + weight r.rest.now ≤ label + weight tokens.now) }
    ensures shorter { IfOk result (λ r. length r.rest.now < length tokens.now) }
    ensures err { IfErr result (λ e. RefusesUpdated depth tokens.now e) }
{
    read!(expr, rest, label in expression(alloc, tokens, depth, label), discard_pairs(items));
    match take(rest, Sort::CloseMap) {
        Ok(rest) => Ok(ReadPairs {
            items,
            updated: Some(expr),
            rest,
            label,
        }),
        Err(fault) => {
            discard_pairs(items);
            discard(expr);
            Err(fault)
        }
    }
}

// A pair, with or without annotation brackets.
#[cycle(expressions)]
#[inline(never)]
fn pair<'a>(
    alloc: Global,
    tokens: &'a [Token],
    depth: u32,
    label: u32,
) -> Result<ReadPair<'a>, PartFault>
    requires shallow { depth ≤ 401 }
    requires labels { label + weight tokens.now < 2 ^ 32 }
    ensures ok { IfOk result (λ r. ReadsPair depth label tokens.now (read_pair r.exact r.key r.value) r.rest.now r.label) }
    ensures labels { IfOk result (λ r. r.label + weight r.rest.now ≤ label + weight tokens.now) }
    ensures shorter { IfOk result (λ r. length r.rest.now < length tokens.now) }
    ensures err { IfErr result (λ e. Refuses (pair_of depth) tokens.now e) }
{
    pair!(bare_pair(alloc, tokens, depth, label) => ReadPair { exact, key, value }, pair_in_brackets, discard(key), discard(value))
}

// A pair that begins with one bracket. It is the key's where an annotation follows the key, and else the
// pair's.
#[cycle(expressions)]
#[inline(never)]
fn pair_in_brackets<'a>(
    alloc: Global,
    tokens: &'a [Token],
    first: First<'a>,
    depth: u32,
    label: u32,
) -> Result<ReadPair<'a>, PartFault>
    requires shallow { depth ≤ 401 }
    requires labels { label + weight tokens.now < 2 ^ 32 }
    requires starts { Starts tokens.now first.token.now first.sort first.place first.rest.now }
    requires shorter { length first.rest.now + 1 ≡ length tokens.now }
    requires lighter { weight first.rest.now + 2 ≤ weight tokens.now }
    requires sort { first.sort ≡ Sort.OpenRound }
    requires once { opens_with (Sort.OpenRound) first.rest.now ≡ false }
    ensures ok { IfOk result (λ r. ReadsPair depth label tokens.now (read_pair r.exact r.key r.value) r.rest.now r.label) }
    ensures labels { IfOk result (λ r. r.label + weight r.rest.now ≤ label + weight tokens.now) }
    ensures shorter { IfOk result (λ r. length r.rest.now < length tokens.now) }
    ensures err { IfErr result (λ e. Refuses (pair_of depth) tokens.now e) }
{
    pair_in_brackets!(value(alloc, first.rest, depth, label) => ReadValue { exact, value }, pair_of_key, ReadPair, discard(value))
}

// expression => expression, or expression := expression
#[cycle(expressions)]
#[inline(never)]
fn bare_pair<'a>(
    alloc: Global,
    tokens: &'a [Token],
    depth: u32,
    label: u32,
) -> Result<ReadPair<'a>, PartFault>
    requires shallow { depth ≤ 401 }
    requires labels { label + weight tokens.now < 2 ^ 32 }
    ensures ok { IfOk result (λ r. ReadsBarePair depth label tokens.now (read_pair r.exact r.key r.value) r.rest.now r.label) }
    ensures labels { IfOk result (λ r. r.label + weight r.rest.now ≤ label + weight tokens.now) }
    ensures shorter { IfOk result (λ r. length r.rest.now < length tokens.now) }
    ensures err { IfErr result (λ e. Refuses (bare_pair_of depth) tokens.now e) }
{
    read!(key, rest, label in expression(alloc, tokens, depth, label));
    answer!(pair_of_key(alloc, key, rest, depth, label))
}

// The pair of this key, behind the key: => expression, or := expression.
#[cycle(expressions)]
#[inline(never)]
fn pair_of_key<'a>(
    alloc: Global,
    key: Boxed<Expr>,
    tokens: &'a [Token],
    depth: u32,
    label: u32,
) -> Result<ReadPair<'a>, PartFault>
    requires shallow { depth ≤ 401 }
    requires labels { label + weight tokens.now < 2 ^ 32 }
    ensures ok { IfOk result (λ r. ReadsValueOf depth label (tree key) tokens.now (read_pair r.exact r.key r.value) r.rest.now r.label) }
    ensures labels { IfOk result (λ r. r.label + weight r.rest.now ≤ label + weight tokens.now) }
    ensures shorter { IfOk result (λ r. length r.rest.now < length tokens.now) }
    ensures err { IfErr result (λ e. RefusesValue depth tokens.now e) }
{
    match value(alloc, tokens, depth, label) {
        Ok(found) => Ok(pair_read(key, found)),
        Err(fault) => {
            discard(key);
            Err(fault)
        }
    }
}

// The value of a pair, behind the key: => expression, or := expression.
#[cycle(expressions)]
#[inline(never)]
fn value<'a>(
    alloc: Global,
    tokens: &'a [Token],
    depth: u32,
    label: u32,
) -> Result<ReadValue<'a>, PartFault>
    requires shallow { depth ≤ 401 }
    requires labels { label + weight tokens.now < 2 ^ 32 }
    ensures ok { IfOk result (λ r. ReadsSuchValue depth label tokens.now r.exact (tree r.value) r.rest.now r.label) }
    ensures labels { IfOk result (λ r. r.label + weight r.rest.now ≤ label + weight tokens.now) }
    ensures shorter { IfOk result (λ r. length r.rest.now < length tokens.now) }
    ensures err { IfErr result (λ e. RefusesValue depth tokens.now e) }
{
    let token = found!(next(tokens));
    let Some(exact) = exactness(token.sort) else {
        return Err(PartFault::Syntax(token.place));
    };
    match expression(alloc, token.rest, depth, label) {
        Ok(
            Read {
                value: expr,
                rest,
                label,
            },
        ) => Ok(ReadValue {
            exact,
            value: expr,
            rest,
            label,
        }),
        Err(fault) => Err(fault),
    }
}
