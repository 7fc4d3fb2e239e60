//! Expressions that plainly give nothing to the state, as nearly all guards do.
ghost use Rattle.std.specs.Prelude.{◌≡◌, IsTrue};
ghost use Rattle.core_ast.specs.Tree.{all_clauses, all_steps, all_trees, tree};
ghost use Rattle.module_flow_calls.specs.steps.Gathering.{step_expression};
ghost use Rattle.module_flow_walk.specs.steps.Silent.{AreSilent, AreSilentClauses, AreSilentSteps, IsSilent};

use core_ast::{Clause, Expr, Form, Step, StepOf, TryParts};

/// Whether an expression plainly gives nothing to the state, whatever is in scope: there is no function in it, no application and
/// no form that guards don't have.
#[cycle(silent)]
pub fn is_silent(expr: &Expr) -> bool
    ensures { IsTrue result → IsSilent (tree expr.now) }
{
    match &expr.form {
        Form::Var(_) => true,
        Form::Lit(_) => true,
        Form::Listed(items, tail) => {
            if !are_silent(items.as_slice()) {
                return false;
            }
            is_silent(tail.get())
        }
        Form::Tuple(items) => are_silent(items.as_slice()),
        Form::Values(items) => are_silent(items.as_slice()),
        Form::Chain(steps, last) => {
            if !are_silent_steps(steps.as_slice()) {
                return false;
            }
            is_silent(last.get())
        }
        Form::Case(argument, clauses) => {
            if !is_silent(argument.get()) {
                return false;
            }
            are_silent_clauses(clauses.as_slice())
        }
        Form::Call(home, name, args) => {
            if !is_silent(home.get()) {
                return false;
            }
            if !is_silent(name.get()) {
                return false;
            }
            are_silent(args.as_slice())
        }
        Form::Primop(_, args) => are_silent(args.as_slice()),
        Form::Try(parts) => is_silent_try(parts),
        Form::Local(_)
        | Form::External(_, _)
        | Form::Fun(_)
        | Form::Map(_, _)
        | Form::Binary(_)
        | Form::Letrec(_, _)
        | Form::Apply(_, _)
        | Form::Receive(_, _, _)
        | Form::Catch(_) => false,
    }
}

// The same of each expression.
#[cycle(silent)]
fn are_silent(exprs: &[Expr]) -> bool
    ensures { IsTrue result → AreSilent (all_trees exprs.now) }
{
    for expr in exprs {
        if !is_silent(expr) {
            return false;
        }
    }
    true
}

// The same of the expressions of steps.
#[cycle(silent)]
fn are_silent_steps(steps: &[Step]) -> bool
    ensures { IsTrue result → AreSilentSteps (all_steps steps.now) }
{
    for step in steps {
        if !is_silent(step_expression(step)) {
            return false;
        }
    }
    true
}

// The expression of a step.
fn step_expression(step: &Step) -> &Expr
    ensures { result.now ≡ step_expression step.now }
{
    match step {
        StepOf::Let(_, _, expr) => expr,
        StepOf::Do(_, expr) => expr,
    }
}

// The same of the guards and the bodies of clauses.
#[cycle(silent)]
fn are_silent_clauses(clauses: &[Clause]) -> bool
    ensures { IsTrue result → AreSilentClauses (all_clauses clauses.now) }
{
    for clause in clauses {
        if !is_silent(&clause.guard) {
            return false;
        }
        if !is_silent(&clause.body) {
            return false;
        }
    }
    true
}

// The same of the parts of a `try`.
#[cycle(silent)]
fn is_silent_try(parts: &TryParts) -> bool
    ensures argument { IsTrue result → IsSilent (tree parts.now.arg) }
    ensures body { IsTrue result → IsSilent (tree parts.now.body) }
    ensures handler { IsTrue result → IsSilent (tree parts.now.handler) }
{
    if !is_silent(parts.arg.get()) {
        return false;
    }
    if !is_silent(parts.body.get()) {
        return false;
    }
    is_silent(parts.handler.get())
}
