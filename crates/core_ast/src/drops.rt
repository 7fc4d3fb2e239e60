// A tree that goes out of scope is taken apart there, form by form, in the proof too. So crates
// above pass what they don't need to these functions, and these pass it to `drop`, which is proved once.

use crate::syntax::{
    Clause, Expr, Fun, FunDef, MapPair, Module, PatPair, PatSegment, Pattern, Segment, Step,
    TryParts,
};
use type_kinds::{List, Shared};

/// Drops an expression.
pub fn discard(tree: Expr) {
    drop(tree)
}

/// Drops expressions.
pub fn discard_all(trees: List<Expr>) {
    drop(trees)
}

/// Drops a fun.
pub fn discard_fun(fun: Fun) {
    drop(fun)
}

/// Drops the parts of a `try`.
pub fn discard_try(parts: TryParts) {
    drop(parts)
}

/// Drops a step.
pub fn discard_step(step: Step) {
    drop(step)
}

/// Drops steps.
pub fn discard_steps(steps: List<Step>) {
    drop(steps)
}

/// Drops a clause.
pub fn discard_clause(clause: Clause) {
    drop(clause)
}

/// Drops clauses.
pub fn discard_clauses(clauses: List<Clause>) {
    drop(clauses)
}

/// Drops the pair of a map.
pub fn discard_pair(pair: MapPair) {
    drop(pair)
}

/// Drops the pairs of a map.
pub fn discard_pairs(pairs: List<MapPair>) {
    drop(pairs)
}

/// Drops the segment of a binary.
pub fn discard_segment(segment: Segment) {
    drop(segment)
}

/// Drops the segments of a binary.
pub fn discard_segments(segments: List<Segment>) {
    drop(segments)
}

/// Drops a pattern.
pub fn discard_pattern(pattern: Pattern) {
    drop(pattern)
}

/// Drops patterns.
pub fn discard_patterns(patterns: List<Pattern>) {
    drop(patterns)
}

/// Drops the pair of a map pattern.
pub fn discard_pattern_pair(pair: PatPair) {
    drop(pair)
}

/// Drops the pairs of a map pattern.
pub fn discard_pattern_pairs(pairs: List<PatPair>) {
    drop(pairs)
}

/// Drops the segment of a binary pattern.
pub fn discard_pattern_segment(segment: PatSegment) {
    drop(segment)
}

/// Drops the segments of a binary pattern.
pub fn discard_pattern_segments(segments: List<PatSegment>) {
    drop(segments)
}

/// Drops a definition.
pub fn discard_definition(definition: FunDef) {
    drop(definition)
}

/// Drops the functions of a `letrec`.
pub fn discard_functions(functions: List<FunDef>) {
    drop(functions)
}

/// Drops the shared definitions of a module.
pub fn discard_definitions(definitions: List<Shared<FunDef>>) {
    drop(definitions)
}

/// Drops a module.
pub fn discard_module(module: Module) {
    drop(module)
}
