//! The forms that bind variables and wait.
ghost use Rattle.std.specs.Prelude.{◌≡◌, ◌∷◌, [], IfOk, OnOk};
ghost use Rattle.core_ast.specs.Tree.{all_clauses, all_defs, all_steps, tree};
ghost use Rattle.core_scope.specs.Asks.{one_value};
ghost use Rattle.module_flow_walk.specs.Walk.{passed};
ghost use Rattle.module_flow_state.specs.steps.Walking.{walk_scope_of};
ghost use Rattle.module_flow_walk.specs.steps.Inside.{GrowsByLet, GrowsByStep, GrowsBySteps, after_action, after_chain, after_functions, after_if};
ghost use Rattle.module_flow_walk.specs.steps.Inside.{after_letrec, after_messages, after_receive, after_tried, after_try, after_under, passed_if};
ghost use Rattle.module_flow_walk.specs.steps.Inside.{seen_behind, seen_behind_let, walked_action, walked_chain, walked_letrec, walked_messages};
ghost use Rattle.module_flow_walk.specs.steps.Inside.{walked_receive, walked_tried, walked_try, walked_under};
ghost use Rattle.module_flow_walk.specs.steps.Walked.{after, sees, walked};

use crate::clauses::walk_matching;
use crate::expressions::walk_expression;
use crate::handing::passed;
use cons_tree::copy_types;
use core_ast::{Clause, Expr, Fun, FunDef, Step, StepOf, TryParts, VarName};
use core_scope::Ask;
use module_flow_calls::{Given, NodeContext, discard_given, either, first, step_note};
use module_flow_state::{FlowWalk, WalkContext};
use type_kinds::{List, Memory};
use type_lattice::Ty;

// An expression that also sees variables of these types.
#[cycle(flow)]
fn walk_under(
    walker: &mut FlowWalk,
    context: &WalkContext,
    around: NodeContext,
    ask: Ask,
    vars: &[VarName],
    types: List<Ty>,
    expr: &Expr,
) -> Result<Given, Memory>
    ensures given { IfOk result (λ given. given ≡ walked_under context.now walker.old ask vars.now types (tree expr.now)) }
    ensures noted { OnOk result (walker.new ≡ after_under context.now around walker.old ask vars.now types (tree expr.now)) }
{
    let position = walker.position();
    walker.bind(vars, types)?;
    let given = walk_expression(walker, context, around, ask, expr)?;
    walker.leave(position);
    Ok(given)
}

// The same, in a position that passes on what is asked.
#[cycle(flow)]
fn walk_passed_under(
    walker: &mut FlowWalk,
    context: &WalkContext,
    around: NodeContext,
    ask: Ask,
    vars: &[VarName],
    types: List<Ty>,
    expr: &Expr,
) -> Result<Given, Memory>
    ensures given { IfOk result (λ given. given ≡ passed ask (walked_under context.now walker.old ask vars.now types (tree expr.now))) }
    ensures noted { OnOk result (walker.new ≡ after_under context.now around walker.old ask vars.now types (tree expr.now)) }
{
    let given = walk_under(walker, context, around, ask, vars, types, expr)?;
    passed(ask, given)
}

/// An expression in a position that passes on what is asked.
#[cycle(flow)]
pub fn walk_passed(
    walker: &mut FlowWalk,
    context: &WalkContext,
    around: NodeContext,
    ask: Ask,
    expr: &Expr,
) -> Result<Given, Memory>
    ensures given { IfOk result (λ given. given ≡ passed ask (walked context.now walker.old ask (tree expr.now))) }
    ensures noted { OnOk result (walker.new ≡ after context.now around walker.old ask (tree expr.now)) }
{
    let given = walk_expression(walker, context, around, ask, expr)?;
    passed(ask, given)
}

/// The body of a fun, whose parameters may be anything.
#[cycle(flow)]
pub fn walk_fun(
    walker: &mut FlowWalk,
    context: &WalkContext,
    around: NodeContext,
    fun: &Fun,
) -> Result<(), Memory>
    ensures noted { OnOk result (walker.new ≡ after_under context.now around walker.old one_value fun.now.params [] (tree fun.now.body)) }
{
    let given = walk_under(
        walker,
        context,
        around,
        Ask::Exactly(1),
        fun.params.as_slice(),
        List::new(walker.alloc),
        fun.body.get(),
    )?;
    discard_given(given);
    Ok(())
}

/// A chain: one step after the other, and then the last expression.
#[cycle(flow)]
pub fn walk_chain(
    walker: &mut FlowWalk,
    context: &WalkContext,
    around: NodeContext,
    ask: Ask,
    steps: &[Step],
    last: &Expr,
) -> Result<Given, Memory>
    ensures given { IfOk result (λ given. given ≡ walked_chain context.now walker.old ask (all_steps steps.now) (tree last.now)) }
    ensures noted { OnOk result (walker.new ≡ after_chain context.now around walker.old ask (all_steps steps.now) (tree last.now)) }
{
    let position = walker.position();
    let there = walk_steps(walker, context, around, steps)?;
    let inner = around.under_steps(steps);
    let given = walk_last(walker, context, inner, ask, there, last)?;
    walker.leave(position);
    Ok(given)
}

// The last expression of a chain, where each step gives values.
#[cycle(flow)]
fn walk_last(
    walker: &mut FlowWalk,
    context: &WalkContext,
    around: NodeContext,
    ask: Ask,
    there: bool,
    last: &Expr,
) -> Result<Given, Memory>
    ensures given { IfOk result (λ given. given ≡ passed_if there context.now walker.old ask (tree last.now)) }
    ensures noted { OnOk result (walker.new ≡ after_if there context.now around walker.old ask (tree last.now)) }
{
    if !there {
        return Ok(None);
    }
    walk_passed(walker, context, around, ask, last)
}

// The steps of a chain, whose variables stay bound, and whether each gives values.
#[cycle(flow)]
fn walk_steps(
    walker: &mut FlowWalk,
    context: &WalkContext,
    around: NodeContext,
    steps: &[Step],
) -> Result<bool, Memory>
    ensures given { IfOk result (λ there. seen_behind context.now walker.old (all_steps steps.now) ≡ sees there (walk_scope_of walker.new)) }
    ensures noted { OnOk result (GrowsBySteps context.now around walker.old walker.new (all_steps steps.now)) }
{
    let mut inner = around;
    for step in steps {
        inner = inner.under(step_note(step));
        let there = walk_step(walker, context, inner, step)?;
        if !there {
            return Ok(false);
        }
    }
    Ok(true)
}

// One step, whose variables stay bound, and whether it gives values.
#[cycle(flow)]
fn walk_step(
    walker: &mut FlowWalk,
    context: &WalkContext,
    around: NodeContext,
    step: &Step,
) -> Result<bool, Memory>
    ensures given { IfOk result (λ there. seen_behind context.now walker.old (all_steps (step.now ∷ [])) ≡ sees there (walk_scope_of walker.new)) }
    ensures noted { OnOk result (GrowsByStep context.now around walker.old walker.new step.now) }
{
    match step {
        StepOf::Let(_, vars, expr) => walk_let(walker, context, around, vars.as_slice(), expr),
        StepOf::Do(_, expr) => {
            let given = walk_expression(walker, context, around, Ask::AnyNumber, expr)?;
            let there = given.is_some();
            discard_given(given);
            Ok(there)
        }
    }
}

// The expression of a `let`, whose variables are bound if it gives values.
#[cycle(flow)]
fn walk_let(
    walker: &mut FlowWalk,
    context: &WalkContext,
    around: NodeContext,
    vars: &[VarName],
    expr: &Expr,
) -> Result<bool, Memory>
    ensures given { IfOk result (λ there. seen_behind_let context.now walker.old vars.now (tree expr.now) ≡ sees there (walk_scope_of walker.new)) }
    ensures noted { OnOk result (GrowsByLet context.now around walker.old walker.new vars.now (tree expr.now)) }
{
    let given = walk_expression(walker, context, around, Ask::Exactly(vars.len()), expr)?;
    match given {
        None => Ok(false),
        Some(types) => {
            walker.bind(vars, types)?;
            Ok(true)
        }
    }
}

/// A `letrec`.
#[cycle(flow)]
pub fn walk_letrec(
    walker: &mut FlowWalk,
    context: &WalkContext,
    around: NodeContext,
    ask: Ask,
    defs: &[FunDef],
    body: &Expr,
) -> Result<Given, Memory>
    ensures given { IfOk result (λ given. given ≡ walked_letrec context.now walker.old ask (all_defs defs.now) (tree body.now)) }
    ensures noted { OnOk result (walker.new ≡ after_letrec context.now around walker.old ask (all_defs defs.now) (tree body.now)) }
{
    let functions = walker.scope.functions.len();
    let labels = walker.labels.len();
    walker.define(defs)?;
    walk_functions(walker, context, around, defs)?;
    let given = walk_passed(walker, context, around, ask, body)?;
    walker.undefine(functions, labels);
    Ok(given)
}

// The functions of a `letrec` that are entered.
#[cycle(flow)]
fn walk_functions(
    walker: &mut FlowWalk,
    context: &WalkContext,
    around: NodeContext,
    defs: &[FunDef],
) -> Result<(), Memory>
    ensures noted { OnOk result (walker.new ≡ after_functions context.now around walker.old (all_defs defs.now)) }
{
    for def in defs {
        walk_function(walker, context, around, def)?;
    }
    Ok(())
}

/// A function, where it is entered.
#[cycle(flow)]
pub fn walk_function(
    walker: &mut FlowWalk,
    context: &WalkContext,
    around: NodeContext,
    def: &FunDef,
) -> Result<(), Memory>
    ensures noted { OnOk result (walker.new ≡ after_functions context.now around walker.old (all_defs (def.now ∷ []))) }
{
    let around = around.under(def.mark.note);
    match context.state.parameters(def.mark.label) {
        None => Ok(()),
        Some(params) => {
            let types = copy_types(walker.alloc, params.as_slice())?;
            let given = walk_under(
                walker,
                context,
                around,
                Ask::Exactly(1),
                def.fun.params.as_slice(),
                types,
                def.fun.body.get(),
            )?;
            walker.give(def.mark.label, given)
        }
    }
}

/// A `try`.
#[cycle(flow)]
pub fn walk_try(
    walker: &mut FlowWalk,
    context: &WalkContext,
    around: NodeContext,
    ask: Ask,
    parts: &TryParts,
) -> Result<Given, Memory>
    ensures given { IfOk result (λ given. given ≡ walked_try context.now walker.old ask parts.now) }
    ensures noted { OnOk result (walker.new ≡ after_try context.now around walker.old ask parts.now) }
{
    let tried = walk_tried(walker, context, around, ask, parts)?;
    let caught = walk_passed_under(
        walker,
        context,
        around,
        ask,
        parts.catch_vars.as_slice(),
        List::new(walker.alloc),
        parts.handler.get(),
    )?;
    either(walker.alloc, tried, caught)
}

// The first expression of a `try`, and its body if that gives values.
#[cycle(flow)]
fn walk_tried(
    walker: &mut FlowWalk,
    context: &WalkContext,
    around: NodeContext,
    ask: Ask,
    parts: &TryParts,
) -> Result<Given, Memory>
    ensures given { IfOk result (λ given. given ≡ walked_tried context.now walker.old ask parts.now) }
    ensures noted { OnOk result (walker.new ≡ after_tried context.now around walker.old ask parts.now) }
{
    let count = parts.vars.len();
    let given = walk_expression(
        walker,
        context,
        around,
        Ask::Exactly(count),
        parts.arg.get(),
    )?;
    match given {
        None => Ok(None),
        Some(types) => walk_passed_under(
            walker,
            context,
            around,
            ask,
            parts.vars.as_slice(),
            types,
            parts.body.get(),
        ),
    }
}

/// A `receive`, whose timeout is walked first.
#[cycle(flow)]
pub fn walk_receive(
    walker: &mut FlowWalk,
    context: &WalkContext,
    around: NodeContext,
    ask: Ask,
    clauses: &[Clause],
    timeout: &Expr,
    action: &Expr,
) -> Result<Given, Memory>
    ensures given { IfOk result (λ given. given ≡ walked_receive context.now walker.old ask (all_clauses clauses.now) (tree timeout.now) (tree action.now)) }
    ensures noted { OnOk result
        (walker.new ≡ after_receive context.now around walker.old ask (all_clauses clauses.now) (tree timeout.now) (tree action.now)) }
{
    let limit = walk_expression(walker, context, around, Ask::Exactly(1), timeout)?;
    match limit {
        None => Ok(None),
        Some(types) => {
            let limit = first(types);
            let messages = walk_messages(walker, context, around, ask, clauses)?;
            let action = walk_action(walker, context, around, ask, limit, action)?;
            either(walker.alloc, messages, action)
        }
    }
}

// The clauses of a `receive`, whose message may be anything.
#[cycle(flow)]
fn walk_messages(
    walker: &mut FlowWalk,
    context: &WalkContext,
    around: NodeContext,
    ask: Ask,
    clauses: &[Clause],
) -> Result<Given, Memory>
    ensures given { IfOk result (λ given. given ≡ walked_messages context.now walker.old ask (all_clauses clauses.now)) }
    ensures noted { OnOk result (walker.new ≡ after_messages context.now around walker.old ask (all_clauses clauses.now)) }
{
    let message = walker.types.len() as u64;
    let mut types = List::new(walker.alloc);
    types.add(Ty::any())?;
    walk_matching(walker, context, around, ask, types, &[message], clauses)
}

// The action of a `receive`, where its timeout may end.
#[cycle(flow)]
fn walk_action(
    walker: &mut FlowWalk,
    context: &WalkContext,
    around: NodeContext,
    ask: Ask,
    limit: Ty,
    action: &Expr,
) -> Result<Given, Memory>
    ensures given { IfOk result (λ given. given ≡ walked_action context.now walker.old ask limit (tree action.now)) }
    ensures noted { OnOk result (walker.new ≡ after_action context.now around walker.old ask limit (tree action.now)) }
{
    if !walker.may_end(limit)? {
        return Ok(None);
    }
    walk_passed(walker, context, around, ask, action)
}
