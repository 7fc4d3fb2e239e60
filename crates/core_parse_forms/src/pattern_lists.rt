ghost use Rattle.std.specs.Prelude.{◌≡◌, ◌+◌, ◌^◌, ◌<◌, ◌≤◌, length, IfOk, IfErr};
ghost use Rattle.core_ast.specs.Model as m;
ghost use Rattle.core_ast.specs.declared.syntax.Literal.TheVariants as l;
ghost use Rattle.core_ast.specs.Tree.{pattern_tree, all_patterns};
ghost use Rattle.core_parse_grammar.specs.Grammar.{bare_pattern};
ghost use Rattle.core_parse_grammar.specs.Faults.{Starts, Refuses};
ghost use Rattle.core_parse_grammar.specs.Readings.{mark as unnoted, ReadsBarePattern, ReadsPatternElements};
ghost use Rattle.core_parse_grammar.specs.Weights.{weight};

use crate::macros::{
    Read, ReadElements, element, elements, found, list, made, nil_tail, node, read, string,
};
use crate::pattern_brackets::{ReadInBrackets, in_brackets};
use crate::patterns::{other_pattern, pattern};
use core_ast::{Literal, Pattern, discard_patterns};
use core_parse_grammar::boxes::{discard_pattern, pushed};
use core_parse_grammar::fault::PartFault;
use core_parse_grammar::leaves::{First, mark, next, take};
use core_parse_grammar::pattern_nodes;
use core_parse_grammar::strings::push_byte_patterns;
use core_scan::{Sort, Token, same};
use std::alloc::Global;
use type_kinds::{Boxed, List, Memory, Place};

// The empty list's node.
fn nil(alloc: Global, label: u32, place: Place) -> Result<Boxed<Pattern>, Memory>
    ensures { IfOk result (λ made. pattern_tree made ≡ m.equals (unnoted label place) l.Nil) }
{
    pattern_nodes::literal(alloc, mark(label, place), Literal::Nil)
}

/// A string that has bytes: the list of them.
pub fn string_pattern<'a>(
    alloc: Global,
    tokens: &'a [Token],
    first: First<'a>,
    depth: u32,
    label: u32,
) -> Result<Read<'a, Boxed<Pattern>>, PartFault>
    requires shallow { depth ≤ 399 }
    requires labels { label + weight tokens.now < 2 ^ 32 }
    requires starts { Starts tokens.now first.token.now first.sort first.place first.rest.now }
    requires shorter { length first.rest.now + 1 ≡ length tokens.now }
    requires lighter { weight first.rest.now + 2 ≤ weight tokens.now }
    requires sort { first.sort ≡ Sort.Text }
    ensures ok { IfOk result (λ r. ReadsBarePattern depth label tokens.now (pattern_tree r.value) r.rest.now r.label) }
    ensures labels { IfOk result (λ r. r.label + weight r.rest.now ≤ label + weight tokens.now) }
    ensures shorter { IfOk result (λ r. length r.rest.now < length tokens.now) }
    ensures err { IfErr result (λ e. Refuses (bare_pattern depth) tokens.now e) }
{
    string!(
        push_byte_patterns(alloc, first, label),
        pattern_nodes::listed,
        discard_patterns
    )
}

/// [ ], [ patterns ] and [ patterns | pattern ].
#[cycle(expressions)]
#[inline(never)]
pub fn pattern_list<'a>(
    alloc: Global,
    tokens: &'a [Token],
    first: First<'a>,
    depth: u32,
    label: u32,
) -> Result<Read<'a, Boxed<Pattern>>, PartFault>
    requires shallow { depth ≤ 400 }
    requires labels { label + weight tokens.now < 2 ^ 32 }
    requires starts { Starts tokens.now first.token.now first.sort first.place first.rest.now }
    requires shorter { length first.rest.now + 1 ≡ length tokens.now }
    requires lighter { weight first.rest.now + 2 ≤ weight tokens.now }
    requires sort { first.sort ≡ Sort.OpenSquare }
    ensures ok { IfOk result (λ r. ReadsBarePattern depth label tokens.now (pattern_tree r.value) r.rest.now r.label) }
    ensures labels { IfOk result (λ r. r.label + weight r.rest.now ≤ label + weight tokens.now) }
    ensures shorter { IfOk result (λ r. length r.rest.now < length tokens.now) }
    ensures err { IfErr result (λ e. Refuses (bare_pattern depth) tokens.now e) }
{
    list!(
        pattern_elements(alloc, tokens, first, depth, label),
        pattern_nodes::listed,
        discard_patterns,
        discard_pattern
    )
}

// The elements of a list and its tail, up to the brackets that close it. A tail that is a list without
// annotation brackets goes into the list.
#[cycle(expressions)]
#[inline(never)]
fn pattern_elements<'a>(
    alloc: Global,
    tokens: &'a [Token],
    first: First<'a>,
    second: First<'a>,
    depth: u32,
    label: u32,
) -> Result<ReadElements<'a, Pattern>, PartFault>
    requires shallow { depth ≤ 400 }
    requires labels { label + weight tokens.now < 2 ^ 32 }
    requires starts { Starts tokens.now first.token.now first.sort first.place first.rest.now }
    requires shorter { length first.rest.now + 1 ≡ length tokens.now }
    requires lighter { weight first.rest.now + 2 ≤ weight tokens.now }
    requires sort { first.sort ≡ Sort.OpenSquare }
    requires goes_on { Starts first.rest.now second.token.now second.sort second.place second.rest.now }
    requires some { second.sort ≡ Sort.CloseSquare → ⊥ }
    ensures ok { IfOk result (λ r. ReadsPatternElements depth label first.entry.place tokens.now r.pending (all_patterns r.items)
        (pattern_tree r.tail) r.rest.now r.label) }
    ensures labels { IfOk result (λ r. r.label + weight r.rest.now ≤ label + weight tokens.now) }
    ensures shorter { IfOk result (λ r. length r.rest.now < length tokens.now) }
    ensures err { IfErr result (λ e. Refuses (bare_pattern depth) tokens.now e) }
{
    elements!(
        pattern(alloc, first, depth, label),
        other_pattern,
        push_byte_patterns,
        discard_patterns,
        |items, bar, behind, next_label, pending| {
            match in_brackets(alloc, bar.rest, behind, depth + 1, next_label) {
                Ok(
                    ReadInBrackets {
                        pattern,
                        rest,
                        label,
                        alone: _,
                    }
                ) => Ok(ReadElements {
                    items,
                    tail: pattern,
                    pending: pending + 1,
                    rest,
                    label,
                }),
                Err(fault) => {
                    discard_patterns(items);
                    Err(fault)
                }
            }
        }
    )
}
