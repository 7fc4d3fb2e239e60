//! The walk through patterns, which bind variables, and in which the keys of maps and the arguments of segments
//! are expressions.
ghost use Rattle.std.specs.Prelude.{map, OnOk};
ghost use Rattle.core_ast.specs.Tree.{all_pat_pairs, all_pat_segments, all_patterns, pattern_tree};
ghost use Rattle.fun_flow_places.specs.Naming.{place_named};
ghost use Rattle.fun_flow_sets.specs.Rules.{rules_of_heads, rules_of_pat_pairs, rules_of_pat_segments, rules_of_patterns};
ghost use Rattle.fun_flow_sets.specs.Scopes.{with_heads, with_pat_pairs, with_pat_segments, with_patterns};
ghost use Rattle.fun_flow_rules.specs.steps.Walking.{Binds, PatternBinds};

use crate::expressions::{walk_all, walk_one};
use crate::walk::{RuleWalk, place_at};
use core_ast::{PatForm, PatPair, PatSegment, Pattern};
use fun_flow_places::FlowPlace;
use type_kinds::Memory;

// A pattern of a value at a place.
#[cycle(rules)]
#[tactic(auto, using(crate::proofs::PatternExits::pattern_exits))]
fn walk_pattern(walk: &mut RuleWalk, place: FlowPlace, pattern: &Pattern) -> Result<(), Memory>
    ensures { OnOk result (PatternBinds walk.old walk.new place (pattern_tree pattern.now)) }
{
    match &pattern.form {
        PatForm::Var(name) => walk.bind(name, place),
        PatForm::Lit(_) => Ok(()),
        PatForm::Listed(items, tail) => {
            walk_patterns(walk, place, items.as_slice())?;
            walk_pattern(walk, place, tail.get())
        }
        PatForm::Tuple(items) => walk_patterns(walk, place, items.as_slice()),
        PatForm::Map(pairs) => walk_pattern_pairs(walk, place, pairs.as_slice()),
        PatForm::Binary(segments) => walk_pattern_segments(walk, segments.as_slice()),
        PatForm::Alias(var, inside) => {
            walk.bind(&var.name, place)?;
            walk_pattern(walk, place, inside.get())
        }
    }
}

// Patterns of parts of one value.
#[cycle(rules)]
fn walk_patterns(walk: &mut RuleWalk, place: FlowPlace, patterns: &[Pattern]) -> Result<(), Memory>
    ensures { OnOk result (Binds walk.old walk.new (λ U home sc. rules_of_patterns U home sc (place_named U place) (all_patterns patterns.now))
        (λ U home sc. with_patterns (place_named U place) (all_patterns patterns.now) sc)) }
{
    for pattern in patterns {
        walk_pattern(walk, place, pattern)?;
    }
    Ok(())
}

// The pairs of a map pattern.
#[cycle(rules)]
fn walk_pattern_pairs(
    walk: &mut RuleWalk,
    place: FlowPlace,
    pairs: &[PatPair],
) -> Result<(), Memory>
    ensures { OnOk result (Binds walk.old walk.new (λ U home sc. rules_of_pat_pairs U home sc (place_named U place) (all_pat_pairs pairs.now))
        (λ U home sc. with_pat_pairs (place_named U place) (all_pat_pairs pairs.now) sc)) }
{
    for pair in pairs {
        walk_one(walk, &pair.key)?;
        walk_pattern(walk, place, &pair.value)?;
    }
    Ok(())
}

// The segments of a binary pattern, whose variables may stand for anything.
#[cycle(rules)]
fn walk_pattern_segments(walk: &mut RuleWalk, segments: &[PatSegment]) -> Result<(), Memory>
    ensures { OnOk result (Binds walk.old walk.new (λ U home sc. rules_of_pat_segments U home sc (all_pat_segments segments.now))
        (λ U home sc. with_pat_segments (all_pat_segments segments.now) sc)) }
{
    for segment in segments {
        walk_pattern(walk, FlowPlace::Anywhere, &segment.value)?;
        walk_all(walk, segment.args.as_slice())?;
    }
    Ok(())
}

/// The patterns of a clause, of values at these places, one after another.
#[cycle(rules)]
pub fn walk_heads(
    walk: &mut RuleWalk,
    places: &[FlowPlace],
    patterns: &[Pattern],
) -> Result<(), Memory>
    ensures { OnOk result (Binds walk.old walk.new (λ U home sc. rules_of_heads U home sc (map (place_named U) places.now)
        (all_patterns patterns.now)) (λ U home sc. with_heads (map (place_named U) places.now) (all_patterns patterns.now) sc)) }
{
    for position in 0..patterns.len() {
        let pattern = &patterns[position];
        walk_pattern(walk, place_at(places, position), pattern)?;
    }
    Ok(())
}
