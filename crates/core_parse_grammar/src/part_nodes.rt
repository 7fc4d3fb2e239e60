// Parts of nodes in boxes. Each maker drops its parts if allocation fails.
ghost use Rattle.std.specs.Prelude.{◌≡◌, ◌++◌, [], ◌∷◌, IfOk};
ghost use Rattle.core_ast.specs.Tree.{tree, pattern_tree, all_trees, all_patterns, clause_parts, pair_parts};
ghost use Rattle.core_ast.specs.Tree.{pat_pair_parts, segment_parts, pat_segment_parts, step_tree};
ghost use Rattle.core_ast.specs.declared.syntax.Clause.{Clause};
ghost use Rattle.core_ast.specs.declared.syntax.MapPair.{MapPair};
ghost use Rattle.core_ast.specs.declared.syntax.PatPair.{PatPair};
ghost use Rattle.core_ast.specs.declared.syntax.StepOf.TheVariants.{Let as let_of, Do as do_of};

use crate::boxes::{added, boxed};
use core_ast::{Clause, Expr, MapPair, Mark, PatPair, PatSegment, Pattern, Segment, Step, VarName};
use std::alloc::Global;
use type_kinds::{Boxed, List, Memory};

/// The clauses and one more, last: its patterns, its guard and its body. If allocation fails all are
/// dropped.
#[inline(never)]
pub fn with_clause(
    items: List<Clause>,
    mark: Mark,
    patterns: List<Pattern>,
    guard: Boxed<Expr>,
    body: Boxed<Expr>,
) -> Result<List<Clause>, Memory>
    ensures { IfOk result (λ made. (clause : Clause) ×
        (clause_parts clause ≡ (record { mark = mark; patterns = all_patterns patterns; guard = tree guard; body = tree body }))
        × (made ≡ items ++ clause ∷ [])) }
{
    let clause = Clause::new(mark, patterns, guard.into_inner(), body.into_inner());
    let mut items = items;
    if added(&mut items, clause) {
        Ok(items)
    } else {
        Err(Memory)
    }
}

/// The pairs of a map and one more, last, written with `:=` where it is exact. If allocation fails all are
/// dropped.
#[inline(never)]
pub fn with_pair(
    items: List<MapPair>,
    exact: bool,
    key: Boxed<Expr>,
    value: Boxed<Expr>,
) -> Result<List<MapPair>, Memory>
    ensures { IfOk result (λ made. (pair : MapPair) × (pair_parts pair ≡ (record { exact = exact; key = tree key; value = tree value }))
        × (made ≡ items ++ pair ∷ [])) }
{
    let pair = MapPair::new(exact, key.into_inner(), value.into_inner());
    let mut items = items;
    if added(&mut items, pair) {
        Ok(items)
    } else {
        Err(Memory)
    }
}

/// The pairs of a map pattern and one more, last. If allocation fails all are dropped.
#[inline(never)]
pub fn with_pattern_pair(
    items: List<PatPair>,
    key: Boxed<Expr>,
    value: Boxed<Pattern>,
) -> Result<List<PatPair>, Memory>
    ensures { IfOk result (λ made. (pair : PatPair) × (pat_pair_parts pair ≡ (record { key = tree key; value = pattern_tree value }))
        × (made ≡ items ++ pair ∷ [])) }
{
    let pair = PatPair::new(key.into_inner(), value.into_inner());
    let mut items = items;
    if added(&mut items, pair) {
        Ok(items)
    } else {
        Err(Memory)
    }
}

/// A segment of a binary.
#[inline(never)]
pub fn segment(
    alloc: Global,
    value: Boxed<Expr>,
    args: List<Expr>,
) -> Result<Boxed<Segment>, Memory>
    ensures { IfOk result (λ made. segment_parts made ≡ (record { value = tree value; args = all_trees args })) }
{
    boxed(alloc, Segment::new(value.into_inner(), args))
}

/// A segment of a binary pattern.
#[inline(never)]
pub fn pattern_segment(
    alloc: Global,
    value: Boxed<Pattern>,
    args: List<Expr>,
) -> Result<Boxed<PatSegment>, Memory>
    ensures { IfOk result (λ made. pat_segment_parts made ≡ (record { value = pattern_tree value; args = all_trees args })) }
{
    boxed(alloc, PatSegment::new(value.into_inner(), args))
}

/// A step of a chain that is a `let`.
#[inline(never)]
pub fn let_step(
    alloc: Global,
    mark: Mark,
    vars: List<VarName>,
    value: Boxed<Expr>,
) -> Result<Boxed<Step>, Memory>
    ensures { IfOk result (λ made. step_tree made ≡ let_of mark vars (tree value)) }
{
    boxed(alloc, Step::Let(mark, vars, value.into_inner()))
}

/// A step of a chain that is a `do`.
#[inline(never)]
pub fn do_step(alloc: Global, mark: Mark, value: Boxed<Expr>) -> Result<Boxed<Step>, Memory>
    ensures { IfOk result (λ made. step_tree made ≡ do_of mark (tree value)) }
{
    boxed(alloc, Step::Do(mark, value.into_inner()))
}
