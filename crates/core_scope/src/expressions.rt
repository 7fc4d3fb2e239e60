// The walk through expressions. Only depth takes stack: lists, chains and clauses are loops.
ghost use Rattle.std.specs.Prelude.{◌≡◌, ◌||◌, [], ◌∷◌, ◌++◌, eqb, length, OnOk};
ghost use Rattle.core_ast.specs.Tree.{tree, all_trees, all_pairs, all_segments, all_steps, all_clauses, all_defs};
ghost use Rattle.core_scope.specs.declared.ask.Ask.TheVariants.{Exactly};
ghost use Rattle.core_scope.specs.Names.{bound_by, steps_bound, defined_names, with_variables, with_functions};
ghost use Rattle.core_scope.specs.Asks.{one_value, width};
ghost use Rattle.core_scope.specs.Breaks.{new_variables, new_functions, catches, breaks, all_breaks};
ghost use Rattle.core_scope.specs.Breaks.{pair_breaks, segment_breaks, step_breaks, clause_breaks, def_breaks};
ghost use Rattle.core_scope.specs.steps.State.{scope_of, noting, binding};

use crate::ask::Ask;
use crate::fault::ScopeRule;
use crate::patterns::walk_patterns;
use crate::walk::Walk;
use core_ast::{
    Clause, Expr, Form, FunDef, MapPair, Mark, Segment, Step, StepOf, TryParts, VarName,
};
use type_kinds::Memory;

/// An expression, in a place that asks for `ask` values.
#[cycle(scope)]
#[tactic(auto, using(crate::proofs::ExpressionExits::expression_exits))]
pub fn walk_expression(walk: &mut Walk, ask: Ask, expr: &Expr) -> Result<(), Memory>
    ensures { OnOk result (walk.new ≡ noting walk.old (breaks (scope_of walk.old) ask (tree expr.now))) }
{
    walk.degree(ask, expr);
    match &expr.form {
        Form::Var(name) => {
            walk.use_variable(name, expr.mark.place);
            Ok(())
        }
        Form::Local(name) => {
            walk.use_function(name, expr.mark.place);
            Ok(())
        }
        Form::External(_, _) | Form::Lit(_) => Ok(()),
        Form::Fun(fun) => walk_under(walk, Ask::Exactly(1), fun.params.as_slice(), fun.body.get()),
        Form::Listed(items, tail) => {
            walk_all(walk, items.as_slice())?;
            walk_expression(walk, Ask::Exactly(1), tail.get())
        }
        Form::Tuple(items) => walk_all(walk, items.as_slice()),
        Form::Map(pairs, updated) => {
            walk_pairs(walk, pairs.as_slice())?;
            match updated {
                Some(map) => walk_expression(walk, Ask::Exactly(1), map.get()),
                None => Ok(()),
            }
        }
        Form::Binary(segments) => walk_segments(walk, segments.as_slice()),
        Form::Values(items) => walk_all(walk, items.as_slice()),
        Form::Chain(steps, last) => {
            let around = walk.variables.len();
            walk_steps(walk, steps.as_slice())?;
            walk_expression(walk, ask, last.get())?;
            walk.variables.leave(around);
            Ok(())
        }
        Form::Case(argument, clauses) => {
            let count = width(clauses.as_slice());
            walk_expression(walk, Ask::Exactly(count), argument.get())?;
            walk_clauses(walk, ask, count, clauses.as_slice())
        }
        Form::Letrec(defs, body) => {
            let around = walk.functions.len();
            walk.define_all(defs.as_slice())?;
            walk_definitions(walk, defs.as_slice())?;
            walk_expression(walk, ask, body.get())?;
            walk.functions.leave(around);
            Ok(())
        }
        Form::Apply(operator, args) => {
            walk_expression(walk, Ask::Exactly(1), operator.get())?;
            walk_all(walk, args.as_slice())
        }
        Form::Call(home, name, args) => {
            walk_expression(walk, Ask::Exactly(1), home.get())?;
            walk_expression(walk, Ask::Exactly(1), name.get())?;
            walk_all(walk, args.as_slice())
        }
        Form::Primop(_, args) => walk_all(walk, args.as_slice()),
        Form::Try(parts) => walk_try(walk, ask, expr.mark, parts),
        Form::Receive(clauses, timeout, action) => {
            walk_clauses(walk, ask, 1, clauses.as_slice())?;
            walk_expression(walk, Ask::Exactly(1), timeout.get())?;
            walk_expression(walk, ask, action.get())
        }
        Form::Catch(inside) => walk_expression(walk, Ask::Exactly(1), inside.get()),
    }
}

/// Expressions of each of which one value is asked.
#[cycle(scope)]
pub fn walk_all(walk: &mut Walk, exprs: &[Expr]) -> Result<(), Memory>
    ensures { OnOk result (walk.new ≡ noting walk.old (all_breaks (scope_of walk.old) (all_trees exprs.now))) }
{
    for expr in exprs {
        walk_expression(walk, Ask::Exactly(1), expr)?;
    }
    Ok(())
}

/// An expression that also sees these variables, in a place that asks for `ask` values.
#[cycle(scope)]
pub fn walk_under(walk: &mut Walk, ask: Ask, vars: &[VarName], body: &Expr) -> Result<(), Memory>
    ensures { OnOk result (walk.new ≡ noting walk.old
        (new_variables [] vars.now ++ breaks (with_variables (scope_of walk.old) (bound_by vars.now)) ask (tree body.now))) }
{
    let around = walk.variables.len();
    walk.bind_all(vars)?;
    walk_expression(walk, ask, body)?;
    walk.variables.leave(around);
    Ok(())
}

// The pairs of a map.
#[cycle(scope)]
fn walk_pairs(walk: &mut Walk, pairs: &[MapPair]) -> Result<(), Memory>
    ensures { OnOk result (walk.new ≡ noting walk.old (pair_breaks (scope_of walk.old) (all_pairs pairs.now))) }
{
    for pair in pairs {
        walk_expression(walk, Ask::Exactly(1), &pair.key)?;
        walk_expression(walk, Ask::Exactly(1), &pair.value)?;
    }
    Ok(())
}

// The segments of a binary.
#[cycle(scope)]
fn walk_segments(walk: &mut Walk, segments: &[Segment]) -> Result<(), Memory>
    ensures { OnOk result (walk.new ≡ noting walk.old (segment_breaks (scope_of walk.old) (all_segments segments.now))) }
{
    for segment in segments {
        walk_expression(walk, Ask::Exactly(1), &segment.value)?;
        walk_all(walk, segment.args.as_slice())?;
    }
    Ok(())
}

// The steps of a chain, whose variables stay bound.
#[cycle(scope)]
fn walk_steps(walk: &mut Walk, steps: &[Step]) -> Result<(), Memory>
    ensures { OnOk result (walk.new ≡ binding walk.old (steps_bound (all_steps steps.now)) (step_breaks (scope_of walk.old) (all_steps steps.now))) }
{
    for step in steps {
        match step {
            StepOf::Let(_, vars, expr) => {
                walk_expression(walk, Ask::Exactly(vars.len()), expr)?;
                walk.bind_all(vars.as_slice())?;
            }
            StepOf::Do(_, expr) => walk_expression(walk, Ask::AnyNumber, expr)?,
        }
    }
    Ok(())
}

/// How many patterns clauses have, by the first of them.
pub fn width(clauses: &[Clause]) -> usize
    ensures { result ≡ width (all_clauses clauses.now) }
{
    match clauses.first() {
        Some(first) => first.patterns.len(),
        None => 0,
    }
}

// Clauses with `count` patterns each.
#[cycle(scope)]
fn walk_clauses(walk: &mut Walk, ask: Ask, count: usize, clauses: &[Clause]) -> Result<(), Memory>
    ensures { OnOk result (walk.new ≡ noting walk.old (clause_breaks (scope_of walk.old) ask count (all_clauses clauses.now))) }
{
    for clause in clauses {
        walk_clause(walk, ask, count, clause)?;
    }
    Ok(())
}

// One clause.
#[cycle(scope)]
fn walk_clause(walk: &mut Walk, ask: Ask, count: usize, clause: &Clause) -> Result<(), Memory>
    ensures { OnOk result (walk.new ≡ noting walk.old (clause_breaks (scope_of walk.old) ask count (all_clauses (clause.now ∷ [])))) }
{
    let holds = clause.patterns.len() == count;
    walk.test(holds, ScopeRule::Degrees, clause.mark.place);
    let around = walk.variables.len();
    walk_patterns(walk, around, clause.patterns.as_slice())?;
    walk_expression(walk, Ask::Exactly(1), &clause.guard)?;
    walk_expression(walk, ask, &clause.body)?;
    walk.variables.leave(around);
    Ok(())
}

// The funs of a `letrec`.
#[cycle(scope)]
fn walk_definitions(walk: &mut Walk, defs: &[FunDef]) -> Result<(), Memory>
    ensures { OnOk result (walk.new ≡ noting walk.old (def_breaks (scope_of walk.old) (all_defs defs.now))) }
{
    for def in defs {
        walk.arity(def);
        walk_under(
            walk,
            Ask::Exactly(1),
            def.fun.params.as_slice(),
            def.fun.body.get(),
        )?;
    }
    Ok(())
}

// Whether a `try` may have these catch variables: two, or three.
fn catches_fit(vars: &[VarName]) -> bool
    ensures { result ≡ (eqb (length vars.now) 2 || eqb (length vars.now) 3) }
{
    vars.len() == 2 || vars.len() == 3
}

// The parts of a `try` with this mark.
#[cycle(scope)]
fn walk_try(walk: &mut Walk, ask: Ask, mark: Mark, parts: &TryParts) -> Result<(), Memory>
    ensures { OnOk result (walk.new ≡ noting walk.old
        (catches mark parts.now.catch_vars ++ breaks (scope_of walk.old) (Exactly (length parts.now.vars)) (tree parts.now.arg)
        ++ new_variables [] parts.now.vars ++ breaks (with_variables (scope_of walk.old) (bound_by parts.now.vars)) ask (tree parts.now.body)
        ++ new_variables [] parts.now.catch_vars ++ breaks (with_variables (scope_of walk.old) (bound_by parts.now.catch_vars)) ask (tree parts.now.handler))) }
{
    let holds = catches_fit(parts.catch_vars.as_slice());
    walk.test(holds, ScopeRule::Degrees, mark.place);
    walk_expression(walk, Ask::Exactly(parts.vars.len()), parts.arg.get())?;
    walk_under(walk, ask, parts.vars.as_slice(), parts.body.get())?;
    walk_under(walk, ask, parts.catch_vars.as_slice(), parts.handler.get())
}
