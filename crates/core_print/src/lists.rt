// What stands in expressions in rows: elements, pairs, segments, steps, clauses, functions.
ghost use Rattle.std.specs.Prelude.{◌≡◌, ◌∷◌, OnOk, codes, true, if◌then◌else◌};
ghost use Rattle.core_ast.specs.Tree.{tree, all_trees, all_clauses, all_defs, all_pairs, all_segments};
ghost use Rattle.core_ast.specs.Tree.{all_steps, clause_parts, def_tree, pair_parts, segment_parts, step_tree};
ghost use Rattle.core_print.specs.Words as w;
ghost use Rattle.core_print.specs.Canonical as c;
ghost use Rattle.core_print.specs.steps.Writes.{Writes};
ghost use Rattle.core_print.specs.steps.Parts.{fronts, ends, step_front, step_end, pair_words, segment_words, clause_words, definition_words};

use crate::expressions::append_expression;
use crate::leaves::{append_comma, append_name, append_variables};
use crate::notes::{append_closed, append_opened};
use crate::patterns::append_patterns;
use core_ast::{Clause, Expr, FunDef, MapPair, Note, Segment, Step, VarName};
use type_kinds::{Bytes, Memory};

/// Appends expressions with commas between them.
#[cycle(print)]
pub fn append_expressions(exprs: &[Expr], out: &mut Bytes) -> Result<(), Memory>
    ensures { OnOk result (Writes (c.expressions true (all_trees exprs.now)) out.old out.new) }
{
    let mut first = true;
    for expr in exprs {
        append_comma(first, out)?;
        first = false;
        append_expression(expr, out)?;
    }
    Ok(())
}

/// Appends the pairs of a map with commas between them.
#[cycle(print)]
pub fn append_pairs(pairs: &[MapPair], out: &mut Bytes) -> Result<(), Memory>
    ensures { OnOk result (Writes (c.pairs true (all_pairs pairs.now)) out.old out.new) }
{
    let mut first = true;
    for pair in pairs {
        append_comma(first, out)?;
        first = false;
        append_pair(pair, out)?;
    }
    Ok(())
}

// Appends a pair of a map.
#[cycle(print)]
#[tactic(auto, using(core_ast::proofs::Trees::part_equations))]
fn append_pair(pair: &MapPair, out: &mut Bytes) -> Result<(), Memory>
    ensures { OnOk result (Writes (pair_words (pair_parts pair.now)) out.old out.new) }
{
    append_expression(&pair.key, out)?;
    append_arrow(pair.exact, out)?;
    append_expression(&pair.value, out)
}

// Appends what stands between a key and its value.
fn append_arrow(exact: bool, out: &mut Bytes) -> Result<(), Memory>
    ensures { OnOk result (Writes (λ rest. w.symbol (if exact then codes ":=" else codes "=>") ∷ rest) out.old out.new) }
{
    if exact {
        return out.append(b" :=");
    }
    out.append(b" =>")
}

/// Appends the segments of a binary with commas between them.
#[cycle(print)]
pub fn append_segments(segments: &[Segment], out: &mut Bytes) -> Result<(), Memory>
    ensures { OnOk result (Writes (c.segments true (all_segments segments.now)) out.old out.new) }
{
    let mut first = true;
    for segment in segments {
        append_comma(first, out)?;
        first = false;
        append_segment(segment, out)?;
    }
    Ok(())
}

// Appends a segment of a binary.
#[cycle(print)]
#[tactic(auto, using(core_ast::proofs::Trees::part_equations))]
fn append_segment(segment: &Segment, out: &mut Bytes) -> Result<(), Memory>
    ensures { OnOk result (Writes (segment_words (segment_parts segment.now)) out.old out.new) }
{
    out.append(b" #<")?;
    append_expression(&segment.value, out)?;
    out.append(b" > (")?;
    append_expressions(segment.args.as_slice(), out)?;
    out.append(b" )")
}

/// Appends the steps of a chain, but for what closes their annotations.
#[cycle(print)]
pub fn append_steps(steps: &[Step], out: &mut Bytes) -> Result<(), Memory>
    ensures { OnOk result (Writes (fronts (all_steps steps.now)) out.old out.new) }
{
    for step in steps {
        append_step(step, out)?;
    }
    Ok(())
}

// Appends a step, but for what closes its annotation.
#[cycle(print)]
fn append_step(step: &Step, out: &mut Bytes) -> Result<(), Memory>
    ensures { OnOk result (Writes (step_front (step_tree step.now)) out.old out.new) }
{
    match step {
        Step::Let(mark, vars, value) => append_let(&mark.note, vars.as_slice(), value, out),
        Step::Do(mark, value) => append_do(&mark.note, value, out),
    }
}

// Appends a `let` up to `in`.
#[cycle(print)]
fn append_let(note: &Note, vars: &[VarName], value: &Expr, out: &mut Bytes) -> Result<(), Memory>
    ensures { OnOk result (Writes (λ rest. c.opened note.now
        (w.reserved (codes "let") ∷ w.symbol (codes "<")
        ∷ c.variables true vars.now (w.symbol (codes ">") ∷ w.symbol (codes "=") ∷ c.expression (tree value.now) (w.reserved (codes "in") ∷ rest))))
        out.old out.new) }
{
    append_opened(note, out)?;
    out.append(b" let <")?;
    append_variables(vars, out)?;
    out.append(b" > =")?;
    append_expression(value, out)?;
    out.append(b" in")
}

// Appends a `do` and its first expression.
#[cycle(print)]
fn append_do(note: &Note, value: &Expr, out: &mut Bytes) -> Result<(), Memory>
    ensures { OnOk result (Writes (λ rest. c.opened note.now (w.reserved (codes "do") ∷ c.expression (tree value.now) rest)) out.old out.new) }
{
    append_opened(note, out)?;
    out.append(b" do")?;
    append_expression(value, out)
}

/// Appends what closes the annotations of the steps of a chain, the last step first.
pub fn append_steps_closed(steps: &[Step], out: &mut Bytes) -> Result<(), Memory>
    ensures { OnOk result (Writes (ends (all_steps steps.now)) out.old out.new) }
{
    let mut left = steps;
    while let Some((last, before)) = left.split_last() {
        append_step_closed(last, out)?;
        left = before;
    }
    Ok(())
}

// Appends what closes the annotation of a step.
fn append_step_closed(step: &Step, out: &mut Bytes) -> Result<(), Memory>
    ensures { OnOk result (Writes (step_end (step_tree step.now)) out.old out.new) }
{
    match step {
        Step::Let(mark, _, _) => append_closed(&mark.note, out),
        Step::Do(mark, _) => append_closed(&mark.note, out),
    }
}

/// Appends clauses.
#[cycle(print)]
pub fn append_clauses(clauses: &[Clause], out: &mut Bytes) -> Result<(), Memory>
    ensures { OnOk result (Writes (c.clauses (all_clauses clauses.now)) out.old out.new) }
{
    for clause in clauses {
        append_clause(clause, out)?;
    }
    Ok(())
}

// Appends a clause.
#[cycle(print)]
#[tactic(auto, using(core_ast::proofs::Trees::part_equations))]
fn append_clause(clause: &Clause, out: &mut Bytes) -> Result<(), Memory>
    ensures { OnOk result (Writes (clause_words (clause_parts clause.now)) out.old out.new) }
{
    append_opened(&clause.mark.note, out)?;
    out.append(b" <")?;
    append_patterns(clause.patterns.as_slice(), out)?;
    out.append(b" > when")?;
    append_expression(&clause.guard, out)?;
    out.append(b" ->")?;
    append_expression(&clause.body, out)?;
    append_closed(&clause.mark.note, out)
}

/// Appends the functions of a `letrec`.
#[cycle(print)]
pub fn append_functions(functions: &[FunDef], out: &mut Bytes) -> Result<(), Memory>
    ensures { OnOk result (Writes (c.definitions (all_defs functions.now)) out.old out.new) }
{
    for function in functions {
        append_definition(function, out)?;
    }
    Ok(())
}

/// Appends a definition.
#[cycle(print)]
pub fn append_definition(definition: &FunDef, out: &mut Bytes) -> Result<(), Memory>
    ensures { OnOk result (Writes (definition_words (def_tree definition.now)) out.old out.new) }
{
    append_name(&definition.name, out)?;
    out.append(b" =")?;
    append_opened(&definition.mark.note, out)?;
    out.append(b" fun (")?;
    append_variables(definition.fun.params.as_slice(), out)?;
    out.append(b" ) ->")?;
    append_expression(definition.fun.body.get(), out)?;
    append_closed(&definition.mark.note, out)
}
