ghost use Rattle.std.specs.Prelude.{◌≡◌, ◌+◌, ◌^◌, ◌<◌, ◌≤◌, true, false, length, IfOk, IfErr};
ghost use Rattle.core_ast.specs.Tree.{pattern_tree, all_patterns};
ghost use Rattle.core_parse_grammar.specs.Grammar.{the, many, pattern as pattern_of, bare_pattern as bare_pattern_of, other_pattern as other_pattern_of};
ghost use Rattle.core_parse_grammar.specs.Faults.{Starts, Refuses, closing};
ghost use Rattle.core_parse_forms.specs.steps.Patterns.{ReadsOtherPattern};
ghost use Rattle.core_parse_grammar.specs.Readings.{ReadsPattern, ReadsBarePattern, ReadsPatterns};
ghost use Rattle.core_parse_grammar.specs.Starters.{literal_sort, starts_pattern, opens_with};
ghost use Rattle.core_parse_grammar.specs.Weights.{weight};

use crate::expressions::is_literal;
use crate::macros::{Read, answer, found, made, many, node, read};
use crate::pattern_binaries::binary_pattern;
use crate::pattern_brackets::{ReadInBrackets, behind_equals, in_brackets, named, noted_alias};
use crate::pattern_lists::{pattern_list, string_pattern};
use crate::pattern_maps::map_pattern;
use core_ast::{Literal, Pattern, VarName, discard_patterns};
use core_parse_grammar::boxes::kept;
use core_parse_grammar::fault::PartFault;
use core_parse_grammar::leaves::{First, is_too_deep, mark, next, no_note, take, text_of};
use core_parse_grammar::literals::literal_of;
use core_parse_grammar::pattern_nodes;
use core_scan::{Sort, Token, same};
use std::alloc::Global;
use type_kinds::{Boxed, List, Memory};

// Whether a pattern without brackets before it begins with a token of this sort.
fn starts(sort: Sort) -> bool
    ensures { result ≡ starts_pattern sort }
{
    match sort {
        Sort::Variable => true,
        Sort::Atom => true,
        Sort::Text => true,
        Sort::OpenSquare => true,
        Sort::OpenCurly => true,
        Sort::OpenBinary => true,
        Sort::OpenMap => true,
        other => is_literal(other),
    }
}

// Whether a token of this sort is a literal by itself.
fn is_single(sort: Sort) -> bool
    ensures { result ≡ literal_sort sort }
{
    match sort {
        Sort::Atom => true,
        other => is_literal(other),
    }
}

/// The pattern that comes first, with or without annotation brackets.
#[cycle(expressions)]
#[inline(never)]
pub fn pattern<'a>(
    alloc: Global,
    tokens: &'a [Token],
    depth: u32,
    label: u32,
) -> Result<Read<'a, Boxed<Pattern>>, PartFault>
    requires shallow { depth ≤ 401 }
    requires labels { label + weight tokens.now < 2 ^ 32 }
    ensures ok { IfOk result (λ r. ReadsPattern depth label tokens.now (pattern_tree r.value) r.rest.now r.label) }
    ensures labels { IfOk result (λ r. r.label + weight r.rest.now ≤ label + weight tokens.now) }
    ensures shorter { IfOk result (λ r. length r.rest.now < length tokens.now) }
    ensures shallow { IfOk result (λ r. depth ≤ 400) }
    ensures err { IfErr result (λ e. Refuses (pattern_of depth) tokens.now e) }
{
    let first = found!(next(tokens));
    if !same(first.sort, Sort::OpenRound) {
        return answer!(bare_pattern(alloc, tokens, depth, label));
    }
    match in_brackets(alloc, tokens, first, depth, label) {
        Ok(
            ReadInBrackets {
                pattern,
                rest,
                label,
                alone: _,
            },
        ) => Ok(Read {
            value: pattern,
            rest,
            label,
        }),
        Err(fault) => Err(fault),
    }
}

/// The pattern that comes first, without annotation brackets.
#[cycle(expressions)]
#[inline(never)]
pub fn bare_pattern<'a>(
    alloc: Global,
    tokens: &'a [Token],
    depth: u32,
    label: u32,
) -> Result<Read<'a, Boxed<Pattern>>, PartFault>
    requires shallow { depth ≤ 401 }
    requires labels { label + weight tokens.now < 2 ^ 32 }
    ensures ok { IfOk result (λ r. ReadsBarePattern depth label tokens.now (pattern_tree r.value) r.rest.now r.label) }
    ensures labels { IfOk result (λ r. r.label + weight r.rest.now ≤ label + weight tokens.now) }
    ensures shorter { IfOk result (λ r. length r.rest.now < length tokens.now) }
    ensures shallow { IfOk result (λ r. depth ≤ 400) }
    ensures err { IfErr result (λ e. Refuses (bare_pattern_of depth) tokens.now e) }
{
    let first = found!(next(tokens));
    if same(first.sort, Sort::OpenRound) {
        return answer!(noted_alias(alloc, tokens, first, depth, label));
    }
    if is_too_deep(first.sort, depth) {
        if starts(first.sort) {
            return Err(PartFault::TooDeep(first.place));
        }
        return Err(PartFault::Syntax(first.place));
    }
    if same(first.sort, Sort::Text) {
        return answer!(string_pattern(alloc, tokens, first, depth, label));
    }
    if same(first.sort, Sort::OpenSquare) {
        return answer!(pattern_list(alloc, tokens, first, depth, label));
    }
    answer!(other_pattern(alloc, tokens, depth, label))
}

/// The pattern that comes first, without brackets before it, where it is no list with elements.
#[cycle(expressions)]
#[inline(never)]
pub fn other_pattern<'a>(
    alloc: Global,
    tokens: &'a [Token],
    depth: u32,
    label: u32,
) -> Result<Read<'a, Boxed<Pattern>>, PartFault>
    requires shallow { depth ≤ 400 }
    requires labels { label + weight tokens.now < 2 ^ 32 }
    requires once { opens_with (Sort.OpenRound) tokens.now ≡ false }
    ensures ok { IfOk result (λ r. ReadsOtherPattern depth label tokens.now (pattern_tree r.value) r.rest.now r.label) }
    ensures labels { IfOk result (λ r. r.label + weight r.rest.now ≤ label + weight tokens.now) }
    ensures shorter { IfOk result (λ r. length r.rest.now < length tokens.now) }
    ensures err { IfErr result (λ e. Refuses (other_pattern_of depth) tokens.now e) }
{
    let first = found!(next(tokens));
    if is_single(first.sort) {
        return match literal_of(alloc, first.token) {
            Ok(value) => node!(
                pattern_nodes::literal(alloc, mark(label, first.place), value),
                first.rest,
                label + 1
            ),
            Err(Memory) => Err(PartFault::Memory),
        };
    }
    match first.sort {
        Sort::Variable => variable_or_alias(alloc, tokens, first, depth, label),
        Sort::OpenSquare => match take(first.rest, Sort::CloseSquare) {
            Ok(rest) => node!(
                pattern_nodes::literal(alloc, mark(label, first.place), Literal::Nil),
                rest,
                label + 1
            ),
            Err(fault) => Err(fault),
        },
        Sort::OpenCurly => tuple_pattern(alloc, tokens, first, depth, label),
        Sort::OpenBinary => binary_pattern(alloc, tokens, first, depth, label),
        Sort::OpenMap => map_pattern(alloc, tokens, first, depth, label),
        _ => Err(PartFault::Syntax(first.place)),
    }
}

// variable, or variable = pattern
#[cycle(expressions)]
#[inline(never)]
fn variable_or_alias<'a>(
    alloc: Global,
    tokens: &'a [Token],
    first: First<'a>,
    depth: u32,
    label: u32,
) -> Result<Read<'a, Boxed<Pattern>>, PartFault>
    requires shallow { depth ≤ 400 }
    requires labels { label + weight tokens.now < 2 ^ 32 }
    requires starts { Starts tokens.now first.token.now first.sort first.place first.rest.now }
    requires shorter { length first.rest.now + 1 ≡ length tokens.now }
    requires lighter { weight first.rest.now + 2 ≤ weight tokens.now }
    requires sort { first.sort ≡ Sort.Variable }
    ensures ok { IfOk result (λ r. ReadsOtherPattern depth label tokens.now (pattern_tree r.value) r.rest.now r.label) }
    ensures labels { IfOk result (λ r. r.label + weight r.rest.now ≤ label + weight tokens.now) }
    ensures shorter { IfOk result (λ r. length r.rest.now < length tokens.now) }
    ensures err { IfErr result (λ e. Refuses (other_pattern_of depth) tokens.now e) }
{
    let name = made!(text_of(alloc, first.token));
    let mark = mark(label, first.place);
    let Some(rest) = behind_equals(first.rest) else {
        return node!(
            pattern_nodes::variable(alloc, mark, name),
            first.rest,
            label + 1
        );
    };
    let name = VarName {
        name,
        place: first.place,
        note: no_note(),
    };
    answer!(named(alloc, mark, name, rest, depth, label))
}

// { patterns }
#[cycle(expressions)]
#[inline(never)]
fn tuple_pattern<'a>(
    alloc: Global,
    tokens: &'a [Token],
    first: First<'a>,
    depth: u32,
    label: u32,
) -> Result<Read<'a, Boxed<Pattern>>, PartFault>
    requires shallow { depth ≤ 400 }
    requires labels { label + weight tokens.now < 2 ^ 32 }
    requires starts { Starts tokens.now first.token.now first.sort first.place first.rest.now }
    requires shorter { length first.rest.now + 1 ≡ length tokens.now }
    requires lighter { weight first.rest.now + 2 ≤ weight tokens.now }
    requires sort { first.sort ≡ Sort.OpenCurly }
    ensures ok { IfOk result (λ r. ReadsOtherPattern depth label tokens.now (pattern_tree r.value) r.rest.now r.label) }
    ensures labels { IfOk result (λ r. r.label + weight r.rest.now ≤ label + weight tokens.now) }
    ensures shorter { IfOk result (λ r. length r.rest.now < length tokens.now) }
    ensures err { IfErr result (λ e. Refuses (other_pattern_of depth) tokens.now e) }
{
    let mark = mark(label, first.place);
    read!(items, rest, label in patterns(alloc, first.rest, Sort::CloseCurly, depth + 1, label + 1));
    node!(pattern_nodes::tuple(alloc, mark, items), rest, label)
}

/// Patterns with commas between them, up to and with the token that closes them.
#[cycle(expressions)]
#[inline(never)]
pub fn patterns<'a>(
    alloc: Global,
    tokens: &'a [Token],
    close: Sort,
    depth: u32,
    label: u32,
) -> Result<Read<'a, List<Pattern>>, PartFault>
    requires closes { closing close ≡ true }
    requires shallow { depth ≤ 401 }
    requires labels { label + weight tokens.now < 2 ^ 32 }
    ensures ok { IfOk result (λ r. ReadsPatterns close depth label tokens.now (all_patterns r.value) r.rest.now r.label) }
    ensures labels { IfOk result (λ r. r.label + weight r.rest.now ≤ label + weight tokens.now) }
    ensures shorter { IfOk result (λ r. length r.rest.now < length tokens.now) }
    ensures err { IfErr result (λ e. Refuses (many close (the (pattern_of depth))) tokens.now e) }
{
    many!(pattern(alloc, tokens, depth, label) => Read { value }, close, kept, discard_patterns)
}
