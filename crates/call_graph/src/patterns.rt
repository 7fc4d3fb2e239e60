// The walk through patterns, in which the keys of maps and the arguments of segments are expressions.
ghost use Rattle.std.specs.Prelude.{◌≡◌, OnOk};
ghost use Rattle.core_ast.specs.Tree.{all_pat_pairs, all_pat_segments, all_patterns, pattern_tree};
ghost use Rattle.call_graph.specs.Targets.{pat_pair_targets, pat_segment_targets, pattern_targets, patterns_targets};
ghost use Rattle.call_graph.specs.steps.Walking.{noting};

use crate::expressions::{walk_all, walk_expression};
use crate::walk::CallWalk;
use core_ast::{PatForm, PatPair, PatSegment, Pattern};
use type_kinds::Memory;

// A pattern.
#[cycle(calls)]
#[tactic(auto, using(crate::proofs::PatternExits::pattern_exits))]
fn walk_pattern(walk: &mut CallWalk, pattern: &Pattern) -> Result<(), Memory>
    ensures { OnOk result (walk.new ≡ noting walk.old (pattern_targets walk.old.locals (pattern_tree pattern.now))) }
{
    match &pattern.form {
        PatForm::Var(_) | PatForm::Lit(_) => Ok(()),
        PatForm::Listed(items, tail) => {
            walk_patterns(walk, items.as_slice())?;
            walk_pattern(walk, tail.get())
        }
        PatForm::Tuple(items) => walk_patterns(walk, items.as_slice()),
        PatForm::Map(pairs) => walk_pattern_pairs(walk, pairs.as_slice()),
        PatForm::Binary(segments) => walk_pattern_segments(walk, segments.as_slice()),
        PatForm::Alias(_, inside) => walk_pattern(walk, inside.get()),
    }
}

/// Patterns.
#[cycle(calls)]
pub fn walk_patterns(walk: &mut CallWalk, patterns: &[Pattern]) -> Result<(), Memory>
    ensures { OnOk result (walk.new ≡ noting walk.old (patterns_targets walk.old.locals (all_patterns patterns.now))) }
{
    for pattern in patterns {
        walk_pattern(walk, pattern)?;
    }
    Ok(())
}

// The pairs of a map pattern.
#[cycle(calls)]
fn walk_pattern_pairs(walk: &mut CallWalk, pairs: &[PatPair]) -> Result<(), Memory>
    ensures { OnOk result (walk.new ≡ noting walk.old (pat_pair_targets walk.old.locals (all_pat_pairs pairs.now))) }
{
    for pair in pairs {
        walk_expression(walk, &pair.key)?;
        walk_pattern(walk, &pair.value)?;
    }
    Ok(())
}

// The segments of a binary pattern.
#[cycle(calls)]
fn walk_pattern_segments(walk: &mut CallWalk, segments: &[PatSegment]) -> Result<(), Memory>
    ensures { OnOk result (walk.new ≡ noting walk.old (pat_segment_targets walk.old.locals (all_pat_segments segments.now))) }
{
    for segment in segments {
        walk_pattern(walk, &segment.value)?;
        walk_all(walk, segment.args.as_slice())?;
    }
    Ok(())
}
