ghost use Rattle.std.specs.Prelude.{◌≡◌, ◌+◌, ◌^◌, ◌<◌, ◌≤◌, length, IfOk, IfErr};
ghost use Rattle.core_ast.specs.Tree.{pattern_tree, all_pat_segments, pat_segment_parts};
ghost use Rattle.core_parse_grammar.specs.Grammar.{the, many, other_pattern, pattern_segment as pattern_segment_of};
ghost use Rattle.core_parse_grammar.specs.Faults.{Starts, Refuses};
ghost use Rattle.core_parse_forms.specs.steps.Patterns.{ReadsOtherPattern};
ghost use Rattle.core_parse_grammar.specs.Readings.{ReadsPatternSegments, ReadsPatternSegment};
ghost use Rattle.core_parse_grammar.specs.Weights.{weight};

use crate::expressions::expressions;
use crate::macros::{Read, found, made, many, node, read, segment};
use crate::patterns::pattern;
use core_ast::{PatSegment, Pattern, discard_pattern_segments};
use core_parse_grammar::boxes::{discard_pattern, kept};
use core_parse_grammar::fault::PartFault;
use core_parse_grammar::leaves::{First, mark, next, take};
use core_parse_grammar::{part_nodes, pattern_nodes};
use core_scan::{Sort, Token, same};
use std::alloc::Global;
use type_kinds::{Boxed, List, Memory};

/// #{ segments }#
#[cycle(expressions)]
#[inline(never)]
pub fn binary_pattern<'a>(
    alloc: Global,
    tokens: &'a [Token],
    first: First<'a>,
    depth: u32,
    label: u32,
) -> Result<Read<'a, Boxed<Pattern>>, PartFault>
    requires shallow { depth ≤ 400 }
    requires labels { label + weight tokens.now < 2 ^ 32 }
    requires starts { Starts tokens.now first.token.now first.sort first.place first.rest.now }
    requires shorter { length first.rest.now + 1 ≡ length tokens.now }
    requires lighter { weight first.rest.now + 2 ≤ weight tokens.now }
    requires sort { first.sort ≡ Sort.OpenBinary }
    ensures ok { IfOk result (λ r. ReadsOtherPattern depth label tokens.now (pattern_tree r.value) r.rest.now r.label) }
    ensures labels { IfOk result (λ r. r.label + weight r.rest.now ≤ label + weight tokens.now) }
    ensures shorter { IfOk result (λ r. length r.rest.now < length tokens.now) }
    ensures err { IfErr result (λ e. Refuses (other_pattern depth) tokens.now e) }
{
    let mark = mark(label, first.place);
    read!(items, rest, label in pattern_segments(alloc, first.rest, depth + 1, label + 1));
    node!(pattern_nodes::binary(alloc, mark, items), rest, label)
}

// Segments with commas between them, up to and with the token that closes them.
#[cycle(expressions)]
#[inline(never)]
fn pattern_segments<'a>(
    alloc: Global,
    tokens: &'a [Token],
    depth: u32,
    label: u32,
) -> Result<Read<'a, List<PatSegment>>, PartFault>
    requires shallow { depth ≤ 401 }
    requires labels { label + weight tokens.now < 2 ^ 32 }
    ensures ok { IfOk result (λ r. ReadsPatternSegments depth label tokens.now (all_pat_segments r.value) r.rest.now r.label) }
    ensures labels { IfOk result (λ r. r.label + weight r.rest.now ≤ label + weight tokens.now) }
    ensures shorter { IfOk result (λ r. length r.rest.now < length tokens.now) }
    ensures err { IfErr result (λ e. Refuses (many (Sort.CloseBinary) (the (pattern_segment_of depth))) tokens.now e) }
{
    many!(pattern_segment(alloc, tokens, depth, label) => Read { value }, Sort::CloseBinary, kept, discard_pattern_segments)
}

// #< pattern > ( expressions )
#[cycle(expressions)]
#[inline(never)]
fn pattern_segment<'a>(
    alloc: Global,
    tokens: &'a [Token],
    depth: u32,
    label: u32,
) -> Result<Read<'a, Boxed<PatSegment>>, PartFault>
    requires shallow { depth ≤ 401 }
    requires labels { label + weight tokens.now < 2 ^ 32 }
    ensures ok { IfOk result (λ r. ReadsPatternSegment depth label tokens.now (pat_segment_parts r.value) r.rest.now r.label) }
    ensures labels { IfOk result (λ r. r.label + weight r.rest.now ≤ label + weight tokens.now) }
    ensures shorter { IfOk result (λ r. length r.rest.now < length tokens.now) }
    ensures err { IfErr result (λ e. Refuses (pattern_segment_of depth) tokens.now e) }
{
    segment!(
        pattern(alloc, tokens, depth, label),
        part_nodes::pattern_segment,
        discard_pattern
    )
}
