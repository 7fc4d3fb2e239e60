ghost use Rattle.std.specs.Prelude.{◌≡◌, ◌+◌, ◌^◌, ◌<◌, ◌≤◌, length, IfOk, IfErr};
ghost use Rattle.core_ast.specs.Tree.{tree, all_segments, segment_parts};
ghost use Rattle.core_parse_grammar.specs.Grammar.{the, many, other_expression, segment as segment_of};
ghost use Rattle.core_parse_grammar.specs.Faults.{Starts, Refuses};
ghost use Rattle.core_parse_grammar.specs.Readings.{ReadsOtherExpression, ReadsSegments, ReadsSegment};
ghost use Rattle.core_parse_grammar.specs.Weights.{weight};

use crate::expressions::{expression, expressions};
use crate::macros::{Read, found, made, many, node, read, segment};
use core_ast::{Expr, Segment, discard_segments};
use core_parse_grammar::boxes::{discard, kept};
use core_parse_grammar::fault::PartFault;
use core_parse_grammar::leaves::{First, mark, next, take};
use core_parse_grammar::{nodes, part_nodes};
use core_scan::{Sort, Token, same};
use std::alloc::Global;
use type_kinds::{Boxed, List, Memory};

/// #{ segments }#
#[cycle(expressions)]
#[inline(never)]
pub fn binary<'a>(
    alloc: Global,
    tokens: &'a [Token],
    first: First<'a>,
    depth: u32,
    label: u32,
) -> Result<Read<'a, Boxed<Expr>>, PartFault>
    requires shallow { depth ≤ 400 }
    requires labels { label + weight tokens.now < 2 ^ 32 }
    requires starts { Starts tokens.now first.token.now first.sort first.place first.rest.now }
    requires shorter { length first.rest.now + 1 ≡ length tokens.now }
    requires lighter { weight first.rest.now + 2 ≤ weight tokens.now }
    requires sort { first.sort ≡ Sort.OpenBinary }
    ensures ok { IfOk result (λ r. ReadsOtherExpression depth label tokens.now (tree r.value) r.rest.now r.label) }
    ensures labels { IfOk result (λ r. r.label + weight r.rest.now ≤ label + weight tokens.now) }
    ensures shorter { IfOk result (λ r. length r.rest.now < length tokens.now) }
    ensures err { IfErr result (λ e. Refuses (other_expression depth) tokens.now e) }
{
    let mark = mark(label, first.place);
    read!(items, rest, label in segments(alloc, first.rest, depth + 1, label + 1));
    node!(nodes::binary(alloc, mark, items), rest, label)
}

// Segments with commas between them, up to and with the token that closes them.
#[cycle(expressions)]
#[inline(never)]
fn segments<'a>(
    alloc: Global,
    tokens: &'a [Token],
    depth: u32,
    label: u32,
) -> Result<Read<'a, List<Segment>>, PartFault>
    requires shallow { depth ≤ 401 }
    requires labels { label + weight tokens.now < 2 ^ 32 }
    ensures ok { IfOk result (λ r. ReadsSegments depth label tokens.now (all_segments r.value) r.rest.now r.label) }
    ensures labels { IfOk result (λ r. r.label + weight r.rest.now ≤ label + weight tokens.now) }
    ensures shorter { IfOk result (λ r. length r.rest.now < length tokens.now) }
    ensures err { IfErr result (λ e. Refuses (many (Sort.CloseBinary) (the (segment_of depth))) tokens.now e) }
{
    many!(segment(alloc, tokens, depth, label) => Read { value }, Sort::CloseBinary, kept, discard_segments)
}

// #< expression > ( expressions )
#[cycle(expressions)]
#[inline(never)]
fn segment<'a>(
    alloc: Global,
    tokens: &'a [Token],
    depth: u32,
    label: u32,
) -> Result<Read<'a, Boxed<Segment>>, PartFault>
    requires shallow { depth ≤ 401 }
    requires labels { label + weight tokens.now < 2 ^ 32 }
    ensures ok { IfOk result (λ r. ReadsSegment depth label tokens.now (segment_parts r.value) r.rest.now r.label) }
    ensures labels { IfOk result (λ r. r.label + weight r.rest.now ≤ label + weight tokens.now) }
    ensures shorter { IfOk result (λ r. length r.rest.now < length tokens.now) }
    ensures err { IfErr result (λ e. Refuses (segment_of depth) tokens.now e) }
{
    segment!(
        expression(alloc, tokens, depth, label),
        part_nodes::segment,
        discard
    )
}
