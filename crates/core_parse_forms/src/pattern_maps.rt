ghost use Rattle.std.specs.Prelude.{◌≡◌, ◌+◌, ◌^◌, ◌<◌, ◌≤◌, false, length, IfOk, IfErr};
ghost use Rattle.core_ast.specs.Tree.{tree, pattern_tree, all_pat_pairs};
ghost use Rattle.core_parse_grammar.specs.Grammar.{the, many, other_pattern, pattern_pair as pattern_pair_of, bare_pattern_pair as bare_pattern_pair_of};
ghost use Rattle.core_parse_grammar.specs.Faults.{Starts, Refuses};
ghost use Rattle.core_parse_grammar.specs.Pairs.{read_pattern_pair, ReadsBarePatternPair, ReadsPatternValue, ReadsPatternValueOf, RefusesPatternValue};
ghost use Rattle.core_parse_forms.specs.steps.Patterns.{ReadsOtherPattern};
ghost use Rattle.core_parse_grammar.specs.Starters.{opens_with};
ghost use Rattle.core_parse_grammar.specs.Readings.{ReadsPatternPairs, ReadsPatternPair};
ghost use Rattle.core_parse_grammar.specs.Weights.{weight};

use crate::expressions::{bare_expression, expression};
use crate::macros::{Read, answer, found, made, many, node, pair, pair_in_brackets, read};
use crate::patterns::pattern;
use core_ast::{Expr, PatPair, Pattern, discard_pattern_pairs};
use core_parse_grammar::annotations::{ReadAnnotated, annotated, annotation};
use core_parse_grammar::boxes::{discard, discard_pattern};
use core_parse_grammar::fault::PartFault;
use core_parse_grammar::leaves::{First, mark, next};
use core_parse_grammar::pairs::behind_sign;
use core_parse_grammar::part_nodes::with_pattern_pair;
use core_parse_grammar::pattern_nodes;
use core_scan::{Sort, Token, same};
use std::alloc::Global;
use type_kinds::{Boxed, List, Memory};

/// The key and the value of a pair of a map pattern, and what follows it.
pub struct ReadPatternPair<'a> {
    pub key: Boxed<Expr>,
    pub value: Boxed<Pattern>,
    pub rest: &'a [Token],
    pub label: u32,
}

/// ~{ pairs }~
#[cycle(expressions)]
#[inline(never)]
pub fn map_pattern<'a>(
    alloc: Global,
    tokens: &'a [Token],
    first: First<'a>,
    depth: u32,
    label: u32,
) -> Result<Read<'a, Boxed<Pattern>>, PartFault>
    requires shallow { depth ≤ 400 }
    requires labels { label + weight tokens.now < 2 ^ 32 }
    requires starts { Starts tokens.now first.token.now first.sort first.place first.rest.now }
    requires shorter { length first.rest.now + 1 ≡ length tokens.now }
    requires lighter { weight first.rest.now + 2 ≤ weight tokens.now }
    requires sort { first.sort ≡ Sort.OpenMap }
    ensures ok { IfOk result (λ r. ReadsOtherPattern depth label tokens.now (pattern_tree r.value) r.rest.now r.label) }
    ensures labels { IfOk result (λ r. r.label + weight r.rest.now ≤ label + weight tokens.now) }
    ensures shorter { IfOk result (λ r. length r.rest.now < length tokens.now) }
    ensures err { IfErr result (λ e. Refuses (other_pattern depth) tokens.now e) }
{
    let mark = mark(label, first.place);
    read!(items, rest, label in pattern_pairs(alloc, first.rest, depth + 1, label + 1));
    node!(pattern_nodes::map(alloc, mark, items), rest, label)
}

// Pairs with commas between them, up to and with the token that closes them.
#[cycle(expressions)]
#[inline(never)]
fn pattern_pairs<'a>(
    alloc: Global,
    tokens: &'a [Token],
    depth: u32,
    label: u32,
) -> Result<Read<'a, List<PatPair>>, PartFault>
    requires shallow { depth ≤ 401 }
    requires labels { label + weight tokens.now < 2 ^ 32 }
    ensures ok { IfOk result (λ r. ReadsPatternPairs depth label tokens.now (all_pat_pairs r.value) r.rest.now r.label) }
    ensures labels { IfOk result (λ r. r.label + weight r.rest.now ≤ label + weight tokens.now) }
    ensures shorter { IfOk result (λ r. length r.rest.now < length tokens.now) }
    ensures err { IfErr result (λ e. Refuses (many (Sort.CloseMap) (the (pattern_pair_of depth))) tokens.now e) }
{
    many!(pattern_pair(alloc, tokens, depth, label) => ReadPatternPair { key, value }, Sort::CloseMap, with_pattern_pair, discard_pattern_pairs)
}

// A pair, with or without annotation brackets.
#[cycle(expressions)]
#[inline(never)]
fn pattern_pair<'a>(
    alloc: Global,
    tokens: &'a [Token],
    depth: u32,
    label: u32,
) -> Result<ReadPatternPair<'a>, PartFault>
    requires shallow { depth ≤ 401 }
    requires labels { label + weight tokens.now < 2 ^ 32 }
    ensures ok { IfOk result (λ r. ReadsPatternPair depth label tokens.now (read_pattern_pair r.key r.value) r.rest.now r.label) }
    ensures labels { IfOk result (λ r. r.label + weight r.rest.now ≤ label + weight tokens.now) }
    ensures shorter { IfOk result (λ r. length r.rest.now < length tokens.now) }
    ensures err { IfErr result (λ e. Refuses (pattern_pair_of depth) tokens.now e) }
{
    pair!(bare_pattern_pair(alloc, tokens, depth, label) => ReadPatternPair { key, value }, pattern_pair_in_brackets, discard(key), discard_pattern(value))
}

// A pair that begins with one bracket. It is the key's where an annotation follows the key, and else the
// pair's.
#[cycle(expressions)]
#[inline(never)]
fn pattern_pair_in_brackets<'a>(
    alloc: Global,
    tokens: &'a [Token],
    first: First<'a>,
    depth: u32,
    label: u32,
) -> Result<ReadPatternPair<'a>, PartFault>
    requires shallow { depth ≤ 401 }
    requires labels { label + weight tokens.now < 2 ^ 32 }
    requires starts { Starts tokens.now first.token.now first.sort first.place first.rest.now }
    requires shorter { length first.rest.now + 1 ≡ length tokens.now }
    requires lighter { weight first.rest.now + 2 ≤ weight tokens.now }
    requires sort { first.sort ≡ Sort.OpenRound }
    requires once { opens_with (Sort.OpenRound) first.rest.now ≡ false }
    ensures ok { IfOk result (λ r. ReadsPatternPair depth label tokens.now (read_pattern_pair r.key r.value) r.rest.now r.label) }
    ensures labels { IfOk result (λ r. r.label + weight r.rest.now ≤ label + weight tokens.now) }
    ensures shorter { IfOk result (λ r. length r.rest.now < length tokens.now) }
    ensures err { IfErr result (λ e. Refuses (pattern_pair_of depth) tokens.now e) }
{
    pair_in_brackets!(value_pattern(alloc, first.rest, depth, label) => Read { value }, pattern_pair_of_key, ReadPatternPair, discard_pattern(value))
}

// expression := pattern
#[cycle(expressions)]
#[inline(never)]
fn bare_pattern_pair<'a>(
    alloc: Global,
    tokens: &'a [Token],
    depth: u32,
    label: u32,
) -> Result<ReadPatternPair<'a>, PartFault>
    requires shallow { depth ≤ 401 }
    requires labels { label + weight tokens.now < 2 ^ 32 }
    ensures ok { IfOk result (λ r. ReadsBarePatternPair depth label tokens.now (read_pattern_pair r.key r.value) r.rest.now r.label) }
    ensures labels { IfOk result (λ r. r.label + weight r.rest.now ≤ label + weight tokens.now) }
    ensures shorter { IfOk result (λ r. length r.rest.now < length tokens.now) }
    ensures err { IfErr result (λ e. Refuses (bare_pattern_pair_of depth) tokens.now e) }
{
    read!(key, rest, label in expression(alloc, tokens, depth, label));
    answer!(pattern_pair_of_key(alloc, key, rest, depth, label))
}

// The pair of this key, behind the key: := pattern.
#[cycle(expressions)]
#[inline(never)]
fn pattern_pair_of_key<'a>(
    alloc: Global,
    key: Boxed<Expr>,
    tokens: &'a [Token],
    depth: u32,
    label: u32,
) -> Result<ReadPatternPair<'a>, PartFault>
    requires shallow { depth ≤ 401 }
    requires labels { label + weight tokens.now < 2 ^ 32 }
    ensures ok { IfOk result (λ r. ReadsPatternValueOf depth label (tree key) tokens.now (read_pattern_pair r.key r.value) r.rest.now r.label) }
    ensures labels { IfOk result (λ r. r.label + weight r.rest.now ≤ label + weight tokens.now) }
    ensures shorter { IfOk result (λ r. length r.rest.now < length tokens.now) }
    ensures err { IfErr result (λ e. RefusesPatternValue depth tokens.now e) }
{
    match value_pattern(alloc, tokens, depth, label) {
        Ok(
            Read {
                value: pattern,
                rest,
                label,
            },
        ) => Ok(ReadPatternPair {
            key,
            value: pattern,
            rest,
            label,
        }),
        Err(fault) => {
            discard(key);
            Err(fault)
        }
    }
}

// The pattern of a pair's value, behind the key: := pattern.
#[cycle(expressions)]
#[inline(never)]
fn value_pattern<'a>(
    alloc: Global,
    tokens: &'a [Token],
    depth: u32,
    label: u32,
) -> Result<Read<'a, Boxed<Pattern>>, PartFault>
    requires shallow { depth ≤ 401 }
    requires labels { label + weight tokens.now < 2 ^ 32 }
    ensures ok { IfOk result (λ r. ReadsPatternValue depth label tokens.now (pattern_tree r.value) r.rest.now r.label) }
    ensures labels { IfOk result (λ r. r.label + weight r.rest.now ≤ label + weight tokens.now) }
    ensures shorter { IfOk result (λ r. length r.rest.now < length tokens.now) }
    ensures err { IfErr result (λ e. RefusesPatternValue depth tokens.now e) }
{
    let rest = found!(behind_sign(tokens));
    answer!(pattern(alloc, rest, depth, label))
}
