// Nodes in boxes, so that what a reader answers is small, however large a node is. A part goes into its
// node in the box that it was read in. Each maker drops its parts if allocation fails.
ghost use Rattle.std.specs.Prelude.{◌≡◌, IfOk};
ghost use Rattle.core_ast.specs.Model as m;
ghost use Rattle.core_ast.specs.Tree.{pattern_tree, all_patterns, all_pat_pairs, all_pat_segments};

use crate::boxes::boxed;
use core_ast::{Literal, Mark, PatForm, PatPair, PatSegment, Pattern, VarName};
use std::alloc::Global;
use type_kinds::{Atom, Boxed, List, Memory};

/// A variable.
#[inline(never)]
pub fn variable(alloc: Global, mark: Mark, name: Atom) -> Result<Boxed<Pattern>, Memory>
    ensures { IfOk result (λ made. pattern_tree made ≡ m.binds mark name) }
{
    boxed(alloc, Pattern::variable(mark, name))
}

/// A literal.
#[inline(never)]
pub fn literal(alloc: Global, mark: Mark, value: Literal) -> Result<Boxed<Pattern>, Memory>
    ensures { IfOk result (λ made. pattern_tree made ≡ m.equals mark value) }
{
    boxed(alloc, Pattern::literal(mark, value))
}

/// A tuple.
#[inline(never)]
pub fn tuple(alloc: Global, mark: Mark, elements: List<Pattern>) -> Result<Boxed<Pattern>, Memory>
    ensures { IfOk result (λ made. pattern_tree made ≡ m.tuple_of mark (all_patterns elements)) }
{
    boxed(alloc, Pattern::tuple(mark, elements))
}

/// A map that has these pairs at least.
#[inline(never)]
pub fn map(alloc: Global, mark: Mark, pairs: List<PatPair>) -> Result<Boxed<Pattern>, Memory>
    ensures { IfOk result (λ made. pattern_tree made ≡ m.map_of mark (all_pat_pairs pairs)) }
{
    boxed(alloc, Pattern::map(mark, pairs))
}

/// A binary.
#[inline(never)]
pub fn binary(
    alloc: Global,
    mark: Mark,
    segments: List<PatSegment>,
) -> Result<Boxed<Pattern>, Memory>
    ensures { IfOk result (λ made. pattern_tree made ≡ m.binary_of mark (all_pat_segments segments)) }
{
    boxed(alloc, Pattern::binary(mark, segments))
}

/// A list: the patterns of its elements and of its tail.
#[tactic(auto, using(core_ast::proofs::Trees::tree_equations))]
#[inline(never)]
pub fn listed(
    alloc: Global,
    mark: Mark,
    elements: List<Pattern>,
    tail: Boxed<Pattern>,
) -> Result<Boxed<Pattern>, Memory>
    ensures { IfOk result (λ made. pattern_tree made ≡ m.list_of mark (all_patterns elements) (pattern_tree tail)) }
{
    boxed(
        alloc,
        Pattern {
            mark,
            form: PatForm::Listed(elements, tail),
        },
    )
}

/// A pattern that a variable names.
#[tactic(auto, using(core_ast::proofs::Trees::tree_equations))]
#[inline(never)]
pub fn alias(
    alloc: Global,
    mark: Mark,
    name: VarName,
    pattern: Boxed<Pattern>,
) -> Result<Boxed<Pattern>, Memory>
    ensures { IfOk result (λ made. pattern_tree made ≡ m.alias mark name (pattern_tree pattern)) }
{
    boxed(
        alloc,
        Pattern {
            mark,
            form: PatForm::Alias(name, pattern),
        },
    )
}
