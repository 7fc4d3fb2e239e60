// The walk through the patterns of a clause, in the order of the text. What they bind stays bound.
ghost use Rattle.std.specs.Prelude.{◌≡◌, ◌≤◌, length, drop, OnOk};
ghost use Rattle.core_ast.specs.Tree.{pattern_tree, all_patterns, all_pat_pairs, all_pat_segments};
ghost use Rattle.core_scope.specs.Names.{pattern_bound, patterns_bound, pairs_bound, segments_bound};
ghost use Rattle.core_scope.specs.Breaks.{pattern_breaks, patterns_breaks, pat_pair_breaks, pat_segment_breaks};
ghost use Rattle.core_scope.specs.steps.State.{scope_around, binding};

use crate::ask::Ask;
use crate::expressions::{walk_all, walk_expression};
use crate::walk::Walk;
use core_ast::{PatForm, PatPair, PatSegment, Pattern};
use type_kinds::Memory;

// A pattern of a clause, before whose patterns there were `from` variables.
#[cycle(scope)]
#[tactic(auto, using(crate::proofs::PatternExits::pattern_exits))]
fn walk_pattern(walk: &mut Walk, from: usize, pattern: &Pattern) -> Result<(), Memory>
    requires { from ≤ length walk.old.variables }
    ensures { OnOk result (walk.new ≡ binding walk.old (pattern_bound (pattern_tree pattern.now))
        (pattern_breaks (scope_around from walk.old) (drop from walk.old.variables) (pattern_tree pattern.now))) }
{
    match &pattern.form {
        PatForm::Var(name) => walk.bind(from, name, pattern.mark.place),
        PatForm::Lit(_) => Ok(()),
        PatForm::Listed(items, tail) => {
            walk_patterns(walk, from, items.as_slice())?;
            walk_pattern(walk, from, tail.get())
        }
        PatForm::Tuple(items) => walk_patterns(walk, from, items.as_slice()),
        PatForm::Map(pairs) => walk_pattern_pairs(walk, from, pairs.as_slice()),
        PatForm::Binary(segments) => walk_pattern_segments(walk, from, segments.as_slice()),
        PatForm::Alias(var, inside) => {
            walk.bind(from, &var.name, var.place)?;
            walk_pattern(walk, from, inside.get())
        }
    }
}

/// Patterns of a clause, before whose patterns there were `from` variables.
#[cycle(scope)]
pub fn walk_patterns(walk: &mut Walk, from: usize, patterns: &[Pattern]) -> Result<(), Memory>
    requires { from ≤ length walk.old.variables }
    ensures { OnOk result (walk.new ≡ binding walk.old (patterns_bound (all_patterns patterns.now))
        (patterns_breaks (scope_around from walk.old) (drop from walk.old.variables) (all_patterns patterns.now))) }
{
    for pattern in patterns {
        walk_pattern(walk, from, pattern)?;
    }
    Ok(())
}

// The pairs of a map pattern. A key sees what stands before it.
#[cycle(scope)]
fn walk_pattern_pairs(walk: &mut Walk, from: usize, pairs: &[PatPair]) -> Result<(), Memory>
    requires { from ≤ length walk.old.variables }
    ensures { OnOk result (walk.new ≡ binding walk.old (pairs_bound (all_pat_pairs pairs.now))
        (pat_pair_breaks (scope_around from walk.old) (drop from walk.old.variables) (all_pat_pairs pairs.now))) }
{
    for pair in pairs {
        walk_expression(walk, Ask::Exactly(1), &pair.key)?;
        walk_pattern(walk, from, &pair.value)?;
    }
    Ok(())
}

// The segments of a binary pattern. Arguments see what stands before them.
#[cycle(scope)]
fn walk_pattern_segments(
    walk: &mut Walk,
    from: usize,
    segments: &[PatSegment],
) -> Result<(), Memory>
    requires { from ≤ length walk.old.variables }
    ensures { OnOk result (walk.new ≡ binding walk.old (segments_bound (all_pat_segments segments.now))
        (pat_segment_breaks (scope_around from walk.old) (drop from walk.old.variables) (all_pat_segments segments.now))) }
{
    for segment in segments {
        walk_pattern(walk, from, &segment.value)?;
        walk_all(walk, segment.args.as_slice())?;
    }
    Ok(())
}
