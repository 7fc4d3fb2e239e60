//! The walk through expressions. Only depth takes stack: lists, chains and clauses are loops.
ghost use Rattle.std.specs.Prelude.{◌≡◌, ◌++◌, IfOk, OnOk};
ghost use Rattle.core_ast.specs.Tree.{all_clauses, all_defs, all_pairs, all_segments, all_steps, all_trees, module_tree, tree};
ghost use Rattle.core_lines.specs.Lines.{behind, lines, lines_of, lines_of_all, lines_of_clauses};
ghost use Rattle.core_lines.specs.Lines.{lines_of_defs, lines_of_pairs, lines_of_segments, lines_of_steps};
ghost use Rattle.core_lines.specs.steps.Parts.{below, step_expression, step_mark};

use crate::node::{add_line, noted};
use crate::patterns::add_patterns;
use core_ast::{
    Clause, Expr, Form, FunDef, MapPair, Mark, Module, Segment, Step, StepOf, TryParts,
};
use std::alloc::Global;
use type_kinds::{List, Memory};

/// The lines of a module's nodes, in the order of their labels: each that of the innermost note around the node, its own first,
/// that has one, or else that of the node's first token.
pub fn node_lines(alloc: Global, module: &Module) -> Result<List<u32>, Memory>
    ensures { IfOk result (λ found. found ≡ lines_of (module_tree module.now)) }
{
    let mut out = List::new(alloc);
    for def in module.defs.as_slice() {
        let def = def.get();
        let inner = noted(module.note.line, def.mark);
        add_line(&mut out, inner, def.mark)?;
        add_expression(&mut out, inner, def.fun.body.get())?;
    }
    Ok(out)
}

/// Adds the lines of an expression.
#[cycle(lines)]
pub fn add_expression(out: &mut List<u32>, around: Option<u32>, expr: &Expr) -> Result<(), Memory>
    ensures { OnOk result (out.new ≡ out.old ++ lines around (tree expr.now)) }
{
    let inner = noted(around, expr.mark);
    add_line(out, inner, expr.mark)?;
    add_parts(out, inner, expr)
}

// Adds the lines of an expression's parts.
#[cycle(lines)]
#[tactic(auto, using(crate::proofs::ExpressionExits::expression_exits))]
fn add_parts(out: &mut List<u32>, inner: Option<u32>, expr: &Expr) -> Result<(), Memory>
    ensures { OnOk result (out.new ≡ out.old ++ below inner (tree expr.now)) }
{
    match &expr.form {
        Form::Var(_) => Ok(()),
        Form::Local(_) => Ok(()),
        Form::External(_, _) => Ok(()),
        Form::Lit(_) => Ok(()),
        Form::Fun(fun) => add_expression(out, inner, fun.body.get()),
        Form::Listed(items, tail) => {
            add_all(out, inner, items.as_slice())?;
            add_expression(out, inner, tail.get())
        }
        Form::Tuple(items) => add_all(out, inner, items.as_slice()),
        Form::Map(pairs, updated) => {
            add_pairs(out, inner, pairs.as_slice())?;
            match updated {
                Some(map) => add_expression(out, inner, map.get()),
                None => Ok(()),
            }
        }
        Form::Binary(segments) => add_segments(out, inner, segments.as_slice()),
        Form::Values(items) => add_all(out, inner, items.as_slice()),
        Form::Chain(steps, last) => {
            let after = add_steps(out, inner, steps.as_slice())?;
            add_expression(out, after, last.get())
        }
        Form::Case(argument, clauses) => {
            add_expression(out, inner, argument.get())?;
            add_clauses(out, inner, clauses.as_slice())
        }
        Form::Letrec(defs, body) => {
            add_definitions(out, inner, defs.as_slice())?;
            add_expression(out, inner, body.get())
        }
        Form::Apply(operator, args) => {
            add_expression(out, inner, operator.get())?;
            add_all(out, inner, args.as_slice())
        }
        Form::Call(home, name, args) => {
            add_expression(out, inner, home.get())?;
            add_expression(out, inner, name.get())?;
            add_all(out, inner, args.as_slice())
        }
        Form::Primop(_, args) => add_all(out, inner, args.as_slice()),
        Form::Try(parts) => add_try(out, inner, parts),
        Form::Receive(clauses, timeout, action) => {
            add_clauses(out, inner, clauses.as_slice())?;
            add_expression(out, inner, timeout.get())?;
            add_expression(out, inner, action.get())
        }
        Form::Catch(inside) => add_expression(out, inner, inside.get()),
    }
}

/// Adds the lines of expressions.
#[cycle(lines)]
pub fn add_all(out: &mut List<u32>, around: Option<u32>, exprs: &[Expr]) -> Result<(), Memory>
    ensures { OnOk result (out.new ≡ out.old ++ lines_of_all around (all_trees exprs.now)) }
{
    for expr in exprs {
        add_expression(out, around, expr)?;
    }
    Ok(())
}

// Adds those of the pairs of a map.
#[cycle(lines)]
fn add_pairs(out: &mut List<u32>, around: Option<u32>, pairs: &[MapPair]) -> Result<(), Memory>
    ensures { OnOk result (out.new ≡ out.old ++ lines_of_pairs around (all_pairs pairs.now)) }
{
    for pair in pairs {
        add_expression(out, around, &pair.key)?;
        add_expression(out, around, &pair.value)?;
    }
    Ok(())
}

// Adds those of the segments of a binary.
#[cycle(lines)]
fn add_segments(
    out: &mut List<u32>,
    around: Option<u32>,
    segments: &[Segment],
) -> Result<(), Memory>
    ensures { OnOk result (out.new ≡ out.old ++ lines_of_segments around (all_segments segments.now)) }
{
    for segment in segments {
        add_expression(out, around, &segment.value)?;
        add_all(out, around, segment.args.as_slice())?;
    }
    Ok(())
}

// Adds those of the steps of a chain, and gives the line of the innermost note around what follows them.
#[cycle(lines)]
fn add_steps(
    out: &mut List<u32>,
    around: Option<u32>,
    steps: &[Step],
) -> Result<Option<u32>, Memory>
    ensures after { IfOk result (λ after. after ≡ behind around (all_steps steps.now)) }
    ensures lines { OnOk result (out.new ≡ out.old ++ lines_of_steps around (all_steps steps.now)) }
{
    let mut inner = around;
    for step in steps {
        let mark = step_mark(step);
        inner = noted(inner, mark);
        add_line(out, inner, mark)?;
        add_expression(out, inner, step_expression(step))?;
    }
    Ok(inner)
}

// The mark of a step.
fn step_mark(step: &Step) -> Mark
    ensures { result ≡ step_mark step.now }
{
    match step {
        StepOf::Let(mark, _, _) => *mark,
        StepOf::Do(mark, _) => *mark,
    }
}

// The expression of a step.
fn step_expression(step: &Step) -> &Expr
    ensures { result.now ≡ step_expression step.now }
{
    match step {
        StepOf::Let(_, _, expr) => expr,
        StepOf::Do(_, expr) => expr,
    }
}

// Adds those of clauses.
#[cycle(lines)]
fn add_clauses(out: &mut List<u32>, around: Option<u32>, clauses: &[Clause]) -> Result<(), Memory>
    ensures { OnOk result (out.new ≡ out.old ++ lines_of_clauses around (all_clauses clauses.now)) }
{
    for clause in clauses {
        let inner = noted(around, clause.mark);
        add_line(out, inner, clause.mark)?;
        add_patterns(out, inner, clause.patterns.as_slice())?;
        add_expression(out, inner, &clause.guard)?;
        add_expression(out, inner, &clause.body)?;
    }
    Ok(())
}

// Adds those of the functions of a `letrec`.
#[cycle(lines)]
fn add_definitions(out: &mut List<u32>, around: Option<u32>, defs: &[FunDef]) -> Result<(), Memory>
    ensures { OnOk result (out.new ≡ out.old ++ lines_of_defs around (all_defs defs.now)) }
{
    for def in defs {
        let inner = noted(around, def.mark);
        add_line(out, inner, def.mark)?;
        add_expression(out, inner, def.fun.body.get())?;
    }
    Ok(())
}

// Adds those of the parts of a `try`.
#[cycle(lines)]
fn add_try(out: &mut List<u32>, inner: Option<u32>, parts: &TryParts) -> Result<(), Memory>
    ensures { OnOk result (out.new ≡ out.old ++ (lines inner (tree parts.now.arg) ++ lines inner (tree parts.now.body)
        ++ lines inner (tree parts.now.handler))) }
{
    add_expression(out, inner, parts.arg.get())?;
    add_expression(out, inner, parts.body.get())?;
    add_expression(out, inner, parts.handler.get())
}
