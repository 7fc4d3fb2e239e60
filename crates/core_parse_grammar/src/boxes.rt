ghost use Rattle.std.specs.Prelude.{◌≡◌, ◌++◌, [], ◌∷◌, IfOk};
ghost use Rattle.std.specs.Bool.{OnTrue, OnFalse};
ghost use Rattle.core_ast.specs.Notes.{note_tree, noted_pattern as noted_pattern_tree, noted_step as noted_step_tree};
ghost use Rattle.core_ast.specs.Tree.{tree, pattern_tree, step_tree};

use core_ast::{Expr, Note, Pattern, Step};
use std::alloc::Global;
use type_kinds::{Boxed, List, Memory};

/// A value in a box. If allocation fails it is dropped.
#[inline(never)]
pub fn boxed<T: Drop>(alloc: Global, value: T) -> Result<Boxed<T>, Memory>
    ensures { IfOk result (λ made. made ≡ value) }
{
    match Boxed::new(alloc, value) {
        Ok(made) => Ok(made),
        Err(_) => Err(Memory),
    }
}

/// Adds an item last and answers true. If allocation fails it drops the item and answers false.
pub fn added<T: Drop>(items: &mut List<T>, item: T) -> bool
    ensures added { OnTrue result (items.new ≡ items.old ++ item ∷ []) }
    ensures refused { OnFalse result (items.new ≡ items.old) }
{
    match items.add(item) {
        Ok(()) => true,
        Err(Memory) => false,
    }
}

/// Adds an item last, out of its box, and answers true. If allocation fails it drops the item and
/// answers false.
#[inline(never)]
pub fn pushed<T: Drop>(items: &mut List<T>, item: Boxed<T>) -> bool
    ensures added { OnTrue result (items.new ≡ items.old ++ item ∷ []) }
    ensures refused { OnFalse result (items.new ≡ items.old) }
{
    added(items, item.into_inner())
}

/// The items and one more, out of its box, last. If allocation fails all are dropped.
#[inline(never)]
pub fn kept<T: Drop>(items: List<T>, item: Boxed<T>) -> Result<List<T>, Memory>
    ensures { IfOk result (λ made. made ≡ items ++ item ∷ []) }
{
    let mut items = items;
    if pushed(&mut items, item) {
        Ok(items)
    } else {
        Err(Memory)
    }
}

/// Drops an expression.
#[inline(never)]
pub fn discard(_tree: Boxed<Expr>) {}

/// Drops a pattern.
#[inline(never)]
pub fn discard_pattern(_pattern: Boxed<Pattern>) {}

/// Drops a step.
#[inline(never)]
pub fn discard_step(_step: Boxed<Step>) {}

/// The expression with another note. If allocation fails it is dropped.
#[inline(never)]
pub fn noted(alloc: Global, expr: Boxed<Expr>, note: Note) -> Result<Boxed<Expr>, Memory>
    ensures { IfOk result (λ made. tree made ≡ note_tree note (tree expr)) }
{
    boxed(alloc, expr.into_inner().with_note(note))
}

/// The pattern with another note. If allocation fails it is dropped.
#[inline(never)]
pub fn noted_pattern(
    alloc: Global,
    pattern: Boxed<Pattern>,
    note: Note,
) -> Result<Boxed<Pattern>, Memory>
    ensures { IfOk result (λ made. pattern_tree made ≡ noted_pattern_tree note (pattern_tree pattern)) }
{
    boxed(alloc, pattern.into_inner().with_note(note))
}

/// The step with another note, out of its box.
#[inline(never)]
pub fn noted_step(step: Boxed<Step>, note: Note) -> Step
    ensures { step_tree result ≡ noted_step_tree note (step_tree step) }
{
    step.into_inner().with_note(note)
}
