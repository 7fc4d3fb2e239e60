// Patterns.
ghost use Rattle.std.specs.Prelude.{◌≡◌, ◌∷◌, OnOk, codes, true};
ghost use Rattle.core_ast.specs.Tree.{pattern_tree, all_patterns, all_pat_pairs, all_pat_segments, pat_pair_parts, pat_segment_parts};
ghost use Rattle.core_print.specs.Words as w;
ghost use Rattle.core_print.specs.Canonical as c;
ghost use Rattle.core_print.specs.steps.Writes.{Writes};
ghost use Rattle.core_print.specs.steps.Parts.{pat_pair_words, pat_segment_words};

use crate::expressions::append_expression;
use crate::leaves::{
    append_comma, append_listed_variable, append_literal, append_literal_tail, append_variable,
};
use crate::lists::append_expressions;
use crate::notes::{append_annotation, append_closed, append_opened};
use core_ast::{PatForm, PatPair, PatSegment, Pattern, VarName};
use type_kinds::{Bytes, Memory};

/// Appends a pattern.
#[cycle(print)]
pub fn append_pattern(pattern: &Pattern, out: &mut Bytes) -> Result<(), Memory>
    ensures { OnOk result (Writes (c.pattern (pattern_tree pattern.now)) out.old out.new) }
{
    append_opened(&pattern.mark.note, out)?;
    append_plain_pattern(pattern, out)?;
    append_closed(&pattern.mark.note, out)
}

// Appends a pattern without its note.
#[cycle(print)]
fn append_plain_pattern(pattern: &Pattern, out: &mut Bytes) -> Result<(), Memory>
    ensures { OnOk result (Writes (c.plain_pattern (pattern_tree pattern.now)) out.old out.new) }
{
    match &pattern.form {
        PatForm::Var(name) => append_variable(name, out),
        PatForm::Lit(value) => append_literal(value, out),
        PatForm::Listed(elements, tail) => {
            append_pattern_list(elements.as_slice(), tail.get(), out)
        }
        PatForm::Tuple(elements) => append_pattern_tuple(elements.as_slice(), out),
        PatForm::Map(pairs) => append_pattern_map(pairs.as_slice(), out),
        PatForm::Binary(segments) => append_pattern_binary(segments.as_slice(), out),
        PatForm::Alias(variable, inner) => append_alias(variable, inner.get(), out),
    }
}

// Appends a list of patterns and its tail.
#[cycle(print)]
fn append_pattern_list(elements: &[Pattern], tail: &Pattern, out: &mut Bytes) -> Result<(), Memory>
    ensures { OnOk result (Writes (λ rest. w.symbol (codes "[")
        ∷ c.patterns true (all_patterns elements.now)
        (c.pattern_tail (pattern_tree tail.now) (c.plain_pattern (pattern_tree tail.now)) (w.symbol (codes "]") ∷ rest))) out.old out.new) }
{
    out.append(b" [")?;
    append_patterns(elements, out)?;
    append_pattern_tail(tail, out)?;
    out.append(b" ]")
}

// Appends the tail of a list of patterns: nothing for nil, and annotation brackets around a list.
#[cycle(print)]
fn append_pattern_tail(tail: &Pattern, out: &mut Bytes) -> Result<(), Memory>
    ensures { OnOk result (Writes (c.pattern_tail (pattern_tree tail.now) (c.plain_pattern (pattern_tree tail.now))) out.old out.new) }
{
    match &tail.form {
        PatForm::Lit(value) => append_literal_tail(value, &tail.mark.note, out),
        PatForm::Listed(_, _) => {
            out.append(b" | (")?;
            append_plain_pattern(tail, out)?;
            append_annotation(&tail.mark.note, out)
        }
        _ => {
            out.append(b" |")?;
            append_pattern(tail, out)
        }
    }
}

// Appends a tuple of patterns.
#[cycle(print)]
fn append_pattern_tuple(elements: &[Pattern], out: &mut Bytes) -> Result<(), Memory>
    ensures { OnOk result (Writes (λ rest. w.symbol (codes "{") ∷ c.patterns true (all_patterns elements.now) (w.symbol (codes "}") ∷ rest)) out.old
        out.new) }
{
    out.append(b" {")?;
    append_patterns(elements, out)?;
    out.append(b" }")
}

// Appends a map pattern.
#[cycle(print)]
fn append_pattern_map(pairs: &[PatPair], out: &mut Bytes) -> Result<(), Memory>
    ensures { OnOk result (Writes (λ rest. w.symbol (codes "~{") ∷ c.pat_pairs true (all_pat_pairs pairs.now) (w.symbol (codes "}~") ∷ rest)) out.old
        out.new) }
{
    out.append(b" ~{")?;
    append_pattern_pairs(pairs, out)?;
    out.append(b" }~")
}

// Appends a binary pattern.
#[cycle(print)]
fn append_pattern_binary(segments: &[PatSegment], out: &mut Bytes) -> Result<(), Memory>
    ensures { OnOk result (Writes (λ rest. w.symbol (codes "#{") ∷ c.pat_segments true (all_pat_segments segments.now) (w.symbol (codes "}#") ∷ rest))
        out.old out.new) }
{
    out.append(b" #{")?;
    append_pattern_segments(segments, out)?;
    out.append(b" }#")
}

// Appends a pattern that a variable names.
#[cycle(print)]
fn append_alias(variable: &VarName, inner: &Pattern, out: &mut Bytes) -> Result<(), Memory>
    ensures { OnOk result (Writes (λ rest. c.variable_in_list variable.now (w.symbol (codes "=") ∷ c.pattern (pattern_tree inner.now) rest)) out.old
        out.new) }
{
    append_listed_variable(variable, out)?;
    out.append(b" =")?;
    append_pattern(inner, out)
}

/// Appends patterns with commas between them.
#[cycle(print)]
pub fn append_patterns(patterns: &[Pattern], out: &mut Bytes) -> Result<(), Memory>
    ensures { OnOk result (Writes (c.patterns true (all_patterns patterns.now)) out.old out.new) }
{
    let mut first = true;
    for pattern in patterns {
        append_comma(first, out)?;
        first = false;
        append_pattern(pattern, out)?;
    }
    Ok(())
}

// Appends the pairs of a map pattern with commas between them.
#[cycle(print)]
fn append_pattern_pairs(pairs: &[PatPair], out: &mut Bytes) -> Result<(), Memory>
    ensures { OnOk result (Writes (c.pat_pairs true (all_pat_pairs pairs.now)) out.old out.new) }
{
    let mut first = true;
    for pair in pairs {
        append_comma(first, out)?;
        first = false;
        append_pattern_pair(pair, out)?;
    }
    Ok(())
}

// Appends a pair of a map pattern.
#[cycle(print)]
#[tactic(auto, using(core_ast::proofs::Trees::part_equations))]
fn append_pattern_pair(pair: &PatPair, out: &mut Bytes) -> Result<(), Memory>
    ensures { OnOk result (Writes (pat_pair_words (pat_pair_parts pair.now)) out.old out.new) }
{
    append_expression(&pair.key, out)?;
    out.append(b" :=")?;
    append_pattern(&pair.value, out)
}

// Appends the segments of a binary pattern with commas between them.
#[cycle(print)]
fn append_pattern_segments(segments: &[PatSegment], out: &mut Bytes) -> Result<(), Memory>
    ensures { OnOk result (Writes (c.pat_segments true (all_pat_segments segments.now)) out.old out.new) }
{
    let mut first = true;
    for segment in segments {
        append_comma(first, out)?;
        first = false;
        append_pattern_segment(segment, out)?;
    }
    Ok(())
}

// Appends a segment of a binary pattern.
#[cycle(print)]
#[tactic(auto, using(core_ast::proofs::Trees::part_equations))]
fn append_pattern_segment(segment: &PatSegment, out: &mut Bytes) -> Result<(), Memory>
    ensures { OnOk result (Writes (pat_segment_words (pat_segment_parts segment.now)) out.old out.new) }
{
    out.append(b" #<")?;
    append_pattern(&segment.value, out)?;
    out.append(b" > (")?;
    append_expressions(segment.args.as_slice(), out)?;
    out.append(b" )")
}
