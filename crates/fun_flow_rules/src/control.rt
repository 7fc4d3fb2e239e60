//! The forms that bind variables, choose and wait.
ghost use Rattle.std.specs.Prelude.{[], ◌∷◌, map, OnOk};
ghost use Rattle.core_ast.specs.Model as m;
ghost use Rattle.core_ast.specs.Tree.{all_clauses, all_defs, all_steps, clause_parts, tree};
ghost use Rattle.core_ast.specs.declared.syntax.Mark.{Mark};
ghost use Rattle.fun_flow_places.specs.Naming.{place_named};
ghost use Rattle.fun_flow_sets.specs.Rules.{after_steps, rules_of_clauses, rules_of_definitions, rules_of_steps};
ghost use Rattle.fun_flow_sets.specs.Scopes.{with_places};
ghost use Rattle.fun_flow_rules.specs.steps.Walking.{Binds, Makes, Walks, clause_rules, joined_rules};

use crate::expressions::{walk_body, walk_expression, walk_one};
use crate::patterns::walk_heads;
use crate::walk::RuleWalk;
use core_ast::{Clause, Expr, FunDef, Mark, Step, StepOf, TryParts, VarName};
use core_scope::{Ask, width};
use fun_flow_places::{FlowPlace, define_all};
use type_kinds::{List, Memory};

/// A chain, whose variables end with it.
#[cycle(rules)]
pub fn walk_chain(
    walk: &mut RuleWalk,
    ask: Ask,
    steps: &[Step],
    last: &Expr,
) -> Result<List<FlowPlace>, Memory>
    ensures { (i : Mark) → Walks walk.old walk.new ask (m.chain i (all_steps steps.now) (tree last.now)) result }
{
    let around = walk.variables.len();
    walk_steps(walk, steps)?;
    let places = walk_expression(walk, ask, last)?;
    walk.variables.leave(around);
    Ok(places)
}

// The steps of a chain, whose variables stay bound.
#[cycle(rules)]
fn walk_steps(walk: &mut RuleWalk, steps: &[Step]) -> Result<(), Memory>
    ensures { OnOk result (Binds walk.old walk.new (λ U home sc. rules_of_steps U home sc (all_steps steps.now))
        (λ U home sc. after_steps U home sc (all_steps steps.now))) }
{
    for step in steps {
        walk_step(walk, step)?;
    }
    Ok(())
}

// One step.
#[cycle(rules)]
fn walk_step(walk: &mut RuleWalk, step: &Step) -> Result<(), Memory>
    ensures { OnOk result (Binds walk.old walk.new (λ U home sc. rules_of_steps U home sc (all_steps (step.now ∷ [])))
        (λ U home sc. after_steps U home sc (all_steps (step.now ∷ [])))) }
{
    match step {
        StepOf::Let(_, vars, expr) => {
            let places = walk_expression(walk, Ask::Exactly(vars.len()), expr)?;
            walk.bind_all(vars.as_slice(), places.as_slice())
        }
        StepOf::Do(_, expr) => {
            walk_expression(walk, Ask::AnyNumber, expr)?;
            Ok(())
        }
    }
}

/// A `case`.
#[cycle(rules)]
pub fn walk_case(
    walk: &mut RuleWalk,
    mark: Mark,
    ask: Ask,
    argument: &Expr,
    clauses: &[Clause],
) -> Result<List<FlowPlace>, Memory>
    ensures { Walks walk.old walk.new ask (m.case mark (tree argument.now) (all_clauses clauses.now)) result }
{
    let values = walk_expression(walk, Ask::Exactly(width(clauses)), argument)?;
    walk_clauses(walk, mark.label, ask, values.as_slice(), clauses)?;
    walk.parts(mark.label, ask)
}

/// A `letrec`, whose functions end with it.
#[cycle(rules)]
pub fn walk_letrec(
    walk: &mut RuleWalk,
    ask: Ask,
    defs: &[FunDef],
    body: &Expr,
) -> Result<List<FlowPlace>, Memory>
    ensures { (i : Mark) → Walks walk.old walk.new ask (m.letrec i (all_defs defs.now) (tree body.now)) result }
{
    let around = walk.functions.len();
    define_all(&mut walk.functions, defs)?;
    walk_definitions(walk, defs)?;
    let places = walk_expression(walk, ask, body)?;
    walk.functions.leave(around);
    Ok(places)
}

// The functions of a `letrec`.
#[cycle(rules)]
fn walk_definitions(walk: &mut RuleWalk, defs: &[FunDef]) -> Result<(), Memory>
    ensures { OnOk result (Makes walk.old walk.new (λ U home sc. rules_of_definitions U home sc (all_defs defs.now))) }
{
    for def in defs {
        walk_body(
            walk,
            def.mark.label,
            def.fun.params.as_slice(),
            def.fun.body.get(),
        )?;
    }
    Ok(())
}

// An expression whose values are those of the form at a label.
#[cycle(rules)]
fn walk_joined(walk: &mut RuleWalk, label: u32, ask: Ask, expr: &Expr) -> Result<(), Memory>
    ensures { OnOk result (Makes walk.old walk.new (λ U home sc. joined_rules U home sc label ask (tree expr.now))) }
{
    let places = walk_expression(walk, ask, expr)?;
    walk.pass_on(label, ask, places.as_slice())
}

// Clauses of the form at a label, which are tried with values at these places.
#[cycle(rules)]
fn walk_clauses(
    walk: &mut RuleWalk,
    label: u32,
    ask: Ask,
    values: &[FlowPlace],
    clauses: &[Clause],
) -> Result<(), Memory>
    ensures { OnOk result (Makes walk.old walk.new (λ U home sc. rules_of_clauses U home sc ask label (map (place_named U) values.now)
        (all_clauses clauses.now))) }
{
    for clause in clauses {
        walk_clause(walk, label, ask, values, clause)?;
    }
    Ok(())
}

// One clause, whose variables end with it.
#[cycle(rules)]
fn walk_clause(
    walk: &mut RuleWalk,
    label: u32,
    ask: Ask,
    values: &[FlowPlace],
    clause: &Clause,
) -> Result<(), Memory>
    ensures { OnOk result (Makes walk.old walk.new (λ U home sc.
        clause_rules U home sc ask label (map (place_named U) values.now) (clause_parts clause.now))) }
{
    let around = walk.variables.len();
    walk_heads(walk, values, clause.patterns.as_slice())?;
    walk_one(walk, &clause.guard)?;
    walk_joined(walk, label, ask, &clause.body)?;
    walk.variables.leave(around);
    Ok(())
}

// An expression whose values are those of the form at a label, and that sees variables that stand for the values
// at these places.
#[cycle(rules)]
fn walk_under(
    walk: &mut RuleWalk,
    label: u32,
    ask: Ask,
    vars: &[VarName],
    places: &[FlowPlace],
    expr: &Expr,
) -> Result<(), Memory>
    ensures { OnOk result (Makes walk.old walk.new (λ U home sc. joined_rules U home (with_places vars.now (map (place_named U) places.now) sc) label
        ask (tree expr.now))) }
{
    let around = walk.variables.len();
    walk.bind_all(vars, places)?;
    walk_joined(walk, label, ask, expr)?;
    walk.variables.leave(around);
    Ok(())
}

/// A `try`, whose handler's variables may stand for anything.
#[cycle(rules)]
pub fn walk_try(
    walk: &mut RuleWalk,
    mark: Mark,
    ask: Ask,
    parts: &TryParts,
) -> Result<List<FlowPlace>, Memory>
    ensures { Walks walk.old walk.new ask (m.try mark (tree parts.now.arg) parts.now.vars (tree parts.now.body) parts.now.catch_vars
        (tree parts.now.handler)) result }
{
    let vars = parts.vars.as_slice();
    let places = walk_expression(walk, Ask::Exactly(vars.len()), parts.arg.get())?;
    walk_under(
        walk,
        mark.label,
        ask,
        vars,
        places.as_slice(),
        parts.body.get(),
    )?;
    walk_under(
        walk,
        mark.label,
        ask,
        parts.catch_vars.as_slice(),
        &[],
        parts.handler.get(),
    )?;
    walk.parts(mark.label, ask)
}

/// A `receive`, whose messages may be anything.
#[cycle(rules)]
pub fn walk_receive(
    walk: &mut RuleWalk,
    mark: Mark,
    ask: Ask,
    clauses: &[Clause],
    timeout: &Expr,
    action: &Expr,
) -> Result<List<FlowPlace>, Memory>
    ensures { Walks walk.old walk.new ask (m.receive mark (all_clauses clauses.now) (tree timeout.now) (tree action.now)) result }
{
    walk_clauses(walk, mark.label, ask, &[], clauses)?;
    walk_one(walk, timeout)?;
    walk_joined(walk, mark.label, ask, action)?;
    walk.parts(mark.label, ask)
}
