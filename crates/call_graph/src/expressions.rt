// The walk through expressions. Only depth takes stack: lists, chains and clauses are loops.
ghost use Rattle.std.specs.Prelude.{◌≡◌, OnOk, ◌∷◌, [], ◌++◌};
ghost use Rattle.core_ast.specs.Tree.{all_clauses, all_defs, all_pairs, all_segments, all_steps, all_trees, tree};
ghost use Rattle.call_graph.specs.Targets.{all_targets, clause_targets, def_targets, pair_targets, segment_targets, step_targets, targets};
ghost use Rattle.call_graph.specs.steps.Walking.{noting, step_expression};

use crate::patterns::walk_patterns;
use crate::walk::CallWalk;
use core_ast::{Clause, Expr, Form, FunDef, MapPair, Segment, Step, StepOf, TryParts};
use type_kinds::Memory;

/// An expression.
#[cycle(calls)]
#[tactic(auto, using(crate::proofs::ExpressionExits::expression_exits))]
pub fn walk_expression(walk: &mut CallWalk, expr: &Expr) -> Result<(), Memory>
    ensures { OnOk result (walk.new ≡ noting walk.old (targets walk.old.locals (tree expr.now))) }
{
    match &expr.form {
        Form::Var(_) | Form::Local(_) | Form::External(_, _) | Form::Lit(_) => Ok(()),
        Form::Fun(fun) => walk_expression(walk, fun.body.get()),
        Form::Listed(items, tail) => {
            walk_all(walk, items.as_slice())?;
            walk_expression(walk, tail.get())
        }
        Form::Tuple(items) => walk_all(walk, items.as_slice()),
        Form::Map(pairs, updated) => {
            walk_pairs(walk, pairs.as_slice())?;
            match updated {
                Some(map) => walk_expression(walk, map.get()),
                None => Ok(()),
            }
        }
        Form::Binary(segments) => walk_segments(walk, segments.as_slice()),
        Form::Values(items) => walk_all(walk, items.as_slice()),
        Form::Chain(steps, last) => {
            walk_steps(walk, steps.as_slice())?;
            walk_expression(walk, last.get())
        }
        Form::Case(argument, clauses) => {
            walk_expression(walk, argument.get())?;
            walk_clauses(walk, clauses.as_slice())
        }
        Form::Letrec(defs, body) => {
            let around = walk.locals.len();
            walk.define_all(defs.as_slice())?;
            walk_definitions(walk, defs.as_slice())?;
            walk_expression(walk, body.get())?;
            walk.locals.leave(around);
            Ok(())
        }
        Form::Apply(operator, args) => {
            walk.note_applied(operator.get())?;
            walk_expression(walk, operator.get())?;
            walk_all(walk, args.as_slice())
        }
        Form::Call(home, name, args) => {
            walk.note_called(home.get(), name.get(), args.len())?;
            walk_expression(walk, home.get())?;
            walk_expression(walk, name.get())?;
            walk_all(walk, args.as_slice())
        }
        Form::Primop(_, args) => walk_all(walk, args.as_slice()),
        Form::Try(parts) => walk_try(walk, parts),
        Form::Receive(clauses, timeout, action) => {
            walk_clauses(walk, clauses.as_slice())?;
            walk_expression(walk, timeout.get())?;
            walk_expression(walk, action.get())
        }
        Form::Catch(inside) => walk_expression(walk, inside.get()),
    }
}

/// Expressions.
#[cycle(calls)]
pub fn walk_all(walk: &mut CallWalk, exprs: &[Expr]) -> Result<(), Memory>
    ensures { OnOk result (walk.new ≡ noting walk.old (all_targets walk.old.locals (all_trees exprs.now))) }
{
    for expr in exprs {
        walk_expression(walk, expr)?;
    }
    Ok(())
}

// The pairs of a map.
#[cycle(calls)]
fn walk_pairs(walk: &mut CallWalk, pairs: &[MapPair]) -> Result<(), Memory>
    ensures { OnOk result (walk.new ≡ noting walk.old (pair_targets walk.old.locals (all_pairs pairs.now))) }
{
    for pair in pairs {
        walk_expression(walk, &pair.key)?;
        walk_expression(walk, &pair.value)?;
    }
    Ok(())
}

// The segments of a binary.
#[cycle(calls)]
fn walk_segments(walk: &mut CallWalk, segments: &[Segment]) -> Result<(), Memory>
    ensures { OnOk result (walk.new ≡ noting walk.old (segment_targets walk.old.locals (all_segments segments.now))) }
{
    for segment in segments {
        walk_expression(walk, &segment.value)?;
        walk_all(walk, segment.args.as_slice())?;
    }
    Ok(())
}

// The steps of a chain.
#[cycle(calls)]
fn walk_steps(walk: &mut CallWalk, steps: &[Step]) -> Result<(), Memory>
    ensures { OnOk result (walk.new ≡ noting walk.old (step_targets walk.old.locals (all_steps steps.now))) }
{
    for step in steps {
        walk_expression(walk, step_expression(step))?;
    }
    Ok(())
}

// The expression of a step.
fn step_expression(step: &Step) -> &Expr
    ensures { result.now ≡ step_expression step.now }
{
    match step {
        StepOf::Let(_, _, expr) => expr,
        StepOf::Do(_, expr) => expr,
    }
}

// Clauses.
#[cycle(calls)]
fn walk_clauses(walk: &mut CallWalk, clauses: &[Clause]) -> Result<(), Memory>
    ensures { OnOk result (walk.new ≡ noting walk.old (clause_targets walk.old.locals (all_clauses clauses.now))) }
{
    for clause in clauses {
        walk_patterns(walk, clause.patterns.as_slice())?;
        walk_expression(walk, &clause.guard)?;
        walk_expression(walk, &clause.body)?;
    }
    Ok(())
}

// The bodies of a `letrec`'s functions.
#[cycle(calls)]
fn walk_definitions(walk: &mut CallWalk, defs: &[FunDef]) -> Result<(), Memory>
    ensures { OnOk result (walk.new ≡ noting walk.old (def_targets walk.old.locals (all_defs defs.now))) }
{
    for def in defs {
        walk_expression(walk, def.fun.body.get())?;
    }
    Ok(())
}

// The parts of a `try`.
#[cycle(calls)]
fn walk_try(walk: &mut CallWalk, parts: &TryParts) -> Result<(), Memory>
    ensures { OnOk result (walk.new ≡ noting walk.old
        (targets walk.old.locals (tree parts.now.arg) ++ targets walk.old.locals (tree parts.now.body) ++ targets walk.old.locals (tree parts.now.handler))) }
{
    walk_expression(walk, parts.arg.get())?;
    walk_expression(walk, parts.body.get())?;
    walk_expression(walk, parts.handler.get())
}
