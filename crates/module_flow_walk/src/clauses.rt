//! Clauses: the heads that may hold, and what stands behind them.
ghost use Rattle.std.specs.Prelude.{◌≡◌, ◌∷◌, [], IfOk, OnOk};
ghost use Rattle.core_ast.specs.Tree.{all_clauses, tree};
ghost use Rattle.cons_tree.specs.Constraints.{constraint};
ghost use Rattle.module_flow_walk.specs.steps.Inside.{after_body, after_body_if, after_case, after_clauses, after_guard, after_matching, after_quietly};
ghost use Rattle.module_flow_walk.specs.steps.Inside.{after_quietly_if, passed_if, walked_body, walked_case, walked_clauses, walked_matching};

use crate::control::walk_passed;
use crate::expressions::walk_expression;
use crate::guards::is_silent;
use cons_gen::head;
use cons_tree::{Constraint, Slot, type_facts};
use core_ast::{Clause, Expr, Mark};
use core_scope::{Ask, width};
use module_flow_calls::{Given, NodeContext, as_many, discard_given, either};
use module_flow_state::{FlowWalk, WalkContext};
use type_kinds::{List, Memory};
use type_lattice::Ty;
use warn_list::FindingKind;

/// A `case`.
#[cycle(flow)]
pub fn walk_case(
    walker: &mut FlowWalk,
    context: &WalkContext,
    around: NodeContext,
    ask: Ask,
    argument: &Expr,
    clauses: &[Clause],
) -> Result<Given, Memory>
    ensures given { IfOk result (λ given. given ≡ walked_case context.now walker.old ask (tree argument.now) (all_clauses clauses.now)) }
    ensures noted { OnOk result (walker.new ≡ after_case context.now around walker.old ask (tree argument.now) (all_clauses clauses.now)) }
{
    let count = width(clauses);
    let given = walk_expression(walker, context, around, Ask::Exactly(count), argument)?;
    match given {
        None => Ok(None),
        Some(types) => {
            let matched = walker.matched_slots(argument, count)?;
            let types = as_many(types, count)?;
            walk_matching(
                walker,
                context,
                around,
                ask,
                types,
                matched.as_slice(),
                clauses,
            )
        }
    }
}

/// Clauses that match values of these types, which stand at the next slots.
#[cycle(flow)]
pub fn walk_matching(
    walker: &mut FlowWalk,
    context: &WalkContext,
    around: NodeContext,
    ask: Ask,
    types: List<Ty>,
    matched: &[Slot],
    clauses: &[Clause],
) -> Result<Given, Memory>
    ensures given { IfOk result (λ given. given ≡ walked_matching context.now walker.old ask types matched.now (all_clauses clauses.now)) }
    ensures noted { OnOk result (walker.new ≡ after_matching context.now around walker.old ask types matched.now (all_clauses clauses.now)) }
{
    let position = walker.position();
    walker.add_types(types)?;
    let given = walk_clauses(walker, context, around, ask, matched, clauses)?;
    walker.leave(position);
    Ok(given)
}

// Clauses, for what is matched at these slots.
#[cycle(flow)]
fn walk_clauses(
    walker: &mut FlowWalk,
    context: &WalkContext,
    around: NodeContext,
    ask: Ask,
    matched: &[Slot],
    clauses: &[Clause],
) -> Result<Given, Memory>
    ensures given { IfOk result (λ given. given ≡ walked_clauses context.now walker.old ask matched.now (all_clauses clauses.now)) }
    ensures noted { OnOk result (walker.new ≡ after_clauses context.now around walker.old ask matched.now (all_clauses clauses.now)) }
{
    type_facts();
    let mut given = None;
    for clause in clauses {
        let other = walk_clause(walker, context, around, ask, matched, clause)?;
        given = either(walker.alloc, given, other)?;
    }
    Ok(given)
}

// One clause.
#[cycle(flow)]
fn walk_clause(
    walker: &mut FlowWalk,
    context: &WalkContext,
    around: NodeContext,
    ask: Ask,
    matched: &[Slot],
    clause: &Clause,
) -> Result<Given, Memory>
    ensures given { IfOk result (λ given. given ≡ walked_clauses context.now walker.old ask matched.now (all_clauses (clause.now ∷ []))) }
    ensures noted { OnOk result (walker.new ≡ after_clauses context.now around walker.old ask matched.now (all_clauses (clause.now ∷ []))) }
{
    let around = around.under(clause.mark.note);
    let position = walker.position();
    let first = walker.types.len() as u64;
    let head = head(
        walker.alloc,
        clause,
        &mut walker.scope,
        matched,
        first,
        context.home,
        context.known,
    )?;
    walker.add_slots(head.slots)?;
    walk_guard(walker, context, around, head.rows.at(0), &clause.guard)?;
    let whole = Constraint::All(head.rows);
    let given = walk_body(
        walker,
        context,
        around,
        ask,
        &clause.mark,
        &whole,
        &clause.body,
    )?;
    walker.leave(position);
    Ok(given)
}

// A guard, where the patterns match. Nothing is reported inside it.
#[cycle(flow)]
fn walk_guard(
    walker: &mut FlowWalk,
    context: &WalkContext,
    around: NodeContext,
    patterns: &Constraint,
    guard: &Expr,
) -> Result<(), Memory>
    ensures noted { OnOk result (walker.new ≡ after_guard context.now walker.old (constraint patterns.now) (tree guard.now)) }
{
    if is_silent(guard) {
        return Ok(());
    }
    let narrowed = walker.narrow(patterns)?;
    walk_matched_guard(walker, context, around, narrowed.alive, guard)?;
    walker.restore(narrowed.trail);
    Ok(())
}

// A guard, where its patterns may match.
#[cycle(flow)]
fn walk_matched_guard(
    walker: &mut FlowWalk,
    context: &WalkContext,
    around: NodeContext,
    alive: bool,
    guard: &Expr,
) -> Result<(), Memory>
    ensures noted { OnOk result (walker.new ≡ after_quietly_if alive context.now walker.old (tree guard.now)) }
{
    if !alive {
        return Ok(());
    }
    walk_quietly(walker, context, around, guard)
}

// An expression, in which nothing is reported.
#[cycle(flow)]
fn walk_quietly(
    walker: &mut FlowWalk,
    context: &WalkContext,
    around: NodeContext,
    expr: &Expr,
) -> Result<(), Memory>
    ensures noted { OnOk result (walker.new ≡ after_quietly context.now walker.old (tree expr.now)) }
{
    let reporting = walker.mute();
    let given = walk_expression(walker, context, around, Ask::Exactly(1), expr)?;
    discard_given(given);
    walker.resume(reporting);
    Ok(())
}

// The body of a clause, where its head may hold.
#[cycle(flow)]
fn walk_body(
    walker: &mut FlowWalk,
    context: &WalkContext,
    around: NodeContext,
    ask: Ask,
    mark: &Mark,
    head: &Constraint,
    body: &Expr,
) -> Result<Given, Memory>
    ensures given { IfOk result (λ given. given ≡ walked_body context.now walker.old ask (constraint head.now) (tree body.now)) }
    ensures noted { OnOk result (walker.new ≡ after_body context.now around walker.old ask mark.now (constraint head.now) (tree body.now)) }
{
    let narrowed = walker.narrow(head)?;
    let given = walk_matched_body(walker, context, around, ask, mark, narrowed.alive, body)?;
    walker.restore(narrowed.trail);
    Ok(given)
}

// The body of a clause where its head may hold, or else the report that it can't.
#[cycle(flow)]
fn walk_matched_body(
    walker: &mut FlowWalk,
    context: &WalkContext,
    around: NodeContext,
    ask: Ask,
    mark: &Mark,
    alive: bool,
    body: &Expr,
) -> Result<Given, Memory>
    ensures given { IfOk result (λ given. given ≡ passed_if alive context.now walker.old ask (tree body.now)) }
    ensures noted { OnOk result (walker.new ≡ after_body_if alive context.now around walker.old ask mark.now (tree body.now)) }
{
    if alive {
        return walk_passed(walker, context, around, ask, body);
    }
    walker.report(around, mark, FindingKind::DeadClause)?;
    Ok(None)
}
