//! The walk through patterns, in which the keys of maps and the arguments of segments are expressions.
ghost use Rattle.std.specs.Prelude.{◌≡◌, ◌++◌, OnOk};
ghost use Rattle.core_ast.specs.Tree.{all_pat_pairs, all_pat_segments, all_patterns, pattern_tree};
ghost use Rattle.core_lines.specs.Lines.{lines_of_pat_pairs, lines_of_pat_segments, lines_of_pattern, lines_of_patterns};
ghost use Rattle.core_lines.specs.steps.Parts.{below_pattern};

use crate::expressions::{add_all, add_expression};
use crate::node::{add_line, noted};
use core_ast::{PatForm, PatPair, PatSegment, Pattern};
use type_kinds::{List, Memory};

// Adds the lines of a pattern.
#[cycle(lines)]
fn add_pattern(out: &mut List<u32>, around: Option<u32>, pattern: &Pattern) -> Result<(), Memory>
    ensures { OnOk result (out.new ≡ out.old ++ lines_of_pattern around (pattern_tree pattern.now)) }
{
    let inner = noted(around, pattern.mark);
    add_line(out, inner, pattern.mark)?;
    add_pattern_parts(out, inner, pattern)
}

// Adds the lines of a pattern's parts.
#[cycle(lines)]
#[tactic(auto, using(crate::proofs::PatternExits::pattern_exits))]
fn add_pattern_parts(
    out: &mut List<u32>,
    inner: Option<u32>,
    pattern: &Pattern,
) -> Result<(), Memory>
    ensures { OnOk result (out.new ≡ out.old ++ below_pattern inner (pattern_tree pattern.now)) }
{
    match &pattern.form {
        PatForm::Var(_) => Ok(()),
        PatForm::Lit(_) => Ok(()),
        PatForm::Listed(items, tail) => {
            add_patterns(out, inner, items.as_slice())?;
            add_pattern(out, inner, tail.get())
        }
        PatForm::Tuple(items) => add_patterns(out, inner, items.as_slice()),
        PatForm::Map(pairs) => add_pattern_pairs(out, inner, pairs.as_slice()),
        PatForm::Binary(segments) => add_pattern_segments(out, inner, segments.as_slice()),
        PatForm::Alias(_, inside) => add_pattern(out, inner, inside.get()),
    }
}

/// Adds the lines of patterns.
#[cycle(lines)]
pub fn add_patterns(
    out: &mut List<u32>,
    around: Option<u32>,
    patterns: &[Pattern],
) -> Result<(), Memory>
    ensures { OnOk result (out.new ≡ out.old ++ lines_of_patterns around (all_patterns patterns.now)) }
{
    for pattern in patterns {
        add_pattern(out, around, pattern)?;
    }
    Ok(())
}

// Adds those of the pairs of a map pattern.
#[cycle(lines)]
fn add_pattern_pairs(
    out: &mut List<u32>,
    around: Option<u32>,
    pairs: &[PatPair],
) -> Result<(), Memory>
    ensures { OnOk result (out.new ≡ out.old ++ lines_of_pat_pairs around (all_pat_pairs pairs.now)) }
{
    for pair in pairs {
        add_expression(out, around, &pair.key)?;
        add_pattern(out, around, &pair.value)?;
    }
    Ok(())
}

// Adds those of the segments of a binary pattern.
#[cycle(lines)]
fn add_pattern_segments(
    out: &mut List<u32>,
    around: Option<u32>,
    segments: &[PatSegment],
) -> Result<(), Memory>
    ensures { OnOk result (out.new ≡ out.old ++ lines_of_pat_segments around (all_pat_segments segments.now)) }
{
    for segment in segments {
        add_pattern(out, around, &segment.value)?;
        add_all(out, around, segment.args.as_slice())?;
    }
    Ok(())
}
