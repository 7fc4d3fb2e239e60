//! The forms that bind variables, choose and wait.
ghost use Rattle.std.specs.Prelude.{◌≡◌, ◌+◌, [], ◌∷◌, length, IfOk, OnOk};
ghost use Rattle.core_ast.specs.Tree.{all_clauses, all_defs, all_steps, tree};
ghost use Rattle.core_scope.specs.declared.ask.Ask.TheVariants.{Exactly};
ghost use Rattle.cons_gen_rows.specs.Counts.{passed_on, results};
ghost use Rattle.cons_gen_rows.specs.Slots.{slots_from};
ghost use Rattle.cons_gen_rows.specs.Walking.{bindings_at};
ghost use Rattle.cons_gen.specs.Spans.{span};
ghost use Rattle.cons_gen.specs.steps.Choosing.{BindsLet, BindsSteps, GeneratesAction, GeneratesAlternatives, GeneratesArgument, GeneratesClauses};
ghost use Rattle.cons_gen.specs.steps.Choosing.{GeneratesFirst, GeneratesGuard, GeneratesHandler, GeneratesLetrec, GeneratesMessages};
ghost use Rattle.cons_gen.specs.steps.Choosing.{GeneratesPassed, GeneratesTried, GeneratesTry, GeneratesUnder, Leaves, passed_rows};

use crate::expressions::{walk_expression, walk_results};
use cons_gen_rows::{Generator, Surroundings, all_naturals, passed_on, walk_outer};
use cons_tree::Slot;
use core_ast::{Clause, Expr, FunDef, Step, StepOf, TryParts, VarName};
use core_scope::Ask;
use type_kinds::{List, Memory};

/// The slots of a `case`: those of its results, and those of its argument's values.
#[derive(Drop)]
pub struct CaseSlots {
    pub results: List<Slot>,
    pub values: List<Slot>,
}

/// The slots of the results of a `receive`, and the position from which its alternatives stand.
#[derive(Drop)]
pub struct ReceiveSlots {
    pub results: List<Slot>,
    pub start: usize,
}

// An expression whose results are passed on to slots.
#[cycle(rows)]
fn walk_passed_on(
    made: &mut Generator,
    context: &Surroundings,
    ask: Ask,
    to: &[Slot],
    expr: &Expr,
) -> Result<(), Memory>
    ensures { OnOk result (GeneratesPassed context.now made.old made.new ask to.now (tree expr.now)) }
{
    let values = walk_results(made, context, ask, expr)?;
    made.equal_each(to, values.as_slice())
}

// An expression that also sees variables at these slots, and whose results are passed on.
#[cycle(rows)]
fn walk_under(
    made: &mut Generator,
    context: &Surroundings,
    ask: Ask,
    to: &[Slot],
    vars: &[VarName],
    slots: &[Slot],
    expr: &Expr,
) -> Result<(), Memory>
    ensures { OnOk result (GeneratesUnder context.now made.old made.new ask to.now (bindings_at vars.now slots.now) (tree expr.now)) }
{
    let around = made.variables.len();
    made.bind_all(vars, slots)?;
    walk_passed_on(made, context, ask, to, expr)?;
    made.variables.leave(around);
    Ok(())
}

// The expression of a `let` with its variables, which stay bound.
#[cycle(rows)]
fn walk_let(
    made: &mut Generator,
    context: &Surroundings,
    vars: &[VarName],
    expr: &Expr,
) -> Result<(), Memory>
    ensures { OnOk result (BindsLet context.now made.old made.new vars.now (tree expr.now)) }
{
    let slots = made.take_run(vars.len())?;
    walk_passed_on(
        made,
        context,
        Ask::Exactly(vars.len()),
        slots.as_slice(),
        expr,
    )?;
    made.bind_all(vars, slots.as_slice())
}

/// The steps of a chain, whose variables stay bound, behind the slots of its results.
#[cycle(rows)]
pub fn walk_steps(
    made: &mut Generator,
    context: &Surroundings,
    ask: Ask,
    steps: &[Step],
) -> Result<List<Slot>, Memory>
    ensures results { IfOk result (λ slots. slots ≡ slots_from made.old.next (passed_on ask)) }
    ensures rows { OnOk result (BindsSteps context.now made.old made.new ask (all_steps steps.now)) }
{
    let results = made.take_run(passed_on(ask))?;
    for step in steps {
        match step {
            StepOf::Let(_, vars, expr) => walk_let(made, context, vars.as_slice(), expr)?,
            StepOf::Do(_, expr) => walk_expression(made, context, Ask::AnyNumber, expr)?,
        }
    }
    Ok(results)
}

/// The last expression of a chain, after which its variables end.
#[cycle(rows)]
pub fn walk_last(
    made: &mut Generator,
    context: &Surroundings,
    ask: Ask,
    to: &List<Slot>,
    around: usize,
    last: &Expr,
) -> Result<(), Memory>
    ensures { OnOk result (Leaves around made.old made.new (span ask (tree last.now)) (passed_rows context.now made.old ask to.now (tree last.now))) }
{
    walk_passed_on(made, context, ask, to.as_slice(), last)?;
    made.variables.leave(around);
    Ok(())
}

/// The argument of a `case` whose clauses have `count` patterns, behind the slots of the results.
#[cycle(rows)]
pub fn walk_argument(
    made: &mut Generator,
    context: &Surroundings,
    ask: Ask,
    count: usize,
    argument: &Expr,
) -> Result<CaseSlots, Memory>
    ensures results { IfOk result (λ case. case.results ≡ slots_from made.old.next (passed_on ask)) }
    ensures values { IfOk result (λ case. case.values ≡ results (Exactly count) (made.old.next + passed_on ask) (tree argument.now)) }
    ensures rows { OnOk result (GeneratesArgument context.now made.old made.new ask count (tree argument.now)) }
{
    let results = made.take_run(passed_on(ask))?;
    let values = walk_results(made, context, Ask::Exactly(count), argument)?;
    Ok(CaseSlots { results, values })
}

/// The clauses of a `case`, as alternatives.
#[cycle(rows)]
pub fn walk_alternatives(
    made: &mut Generator,
    context: &Surroundings,
    ask: Ask,
    case: &CaseSlots,
    clauses: &[Clause],
) -> Result<(), Memory>
    ensures { OnOk result (GeneratesAlternatives context.now made.old made.new ask case.now.results case.now.values (all_clauses clauses.now)) }
{
    let start = made.count();
    walk_clauses(
        made,
        context,
        ask,
        case.results.as_slice(),
        case.values.as_slice(),
        clauses,
    )?;
    made.any_since(start)
}

// Clauses, each a row of its own.
#[cycle(rows)]
fn walk_clauses(
    made: &mut Generator,
    context: &Surroundings,
    ask: Ask,
    to: &[Slot],
    values: &[Slot],
    clauses: &[Clause],
) -> Result<(), Memory>
    ensures { OnOk result (GeneratesClauses context.now made.old made.new ask to.now values.now (all_clauses clauses.now)) }
{
    for clause in clauses {
        walk_clause(made, context, ask, to, values, clause)?;
    }
    Ok(())
}

// One clause.
#[cycle(rows)]
fn walk_clause(
    made: &mut Generator,
    context: &Surroundings,
    ask: Ask,
    to: &[Slot],
    values: &[Slot],
    clause: &Clause,
) -> Result<(), Memory>
    ensures { OnOk result (GeneratesClauses context.now made.old made.new ask to.now values.now (all_clauses (clause.now ∷ []))) }
{
    let around = made.variables.len();
    let start = made.count();
    walk_outer(made, values, clause.patterns.as_slice())?;
    walk_guard(made, context, &clause.guard)?;
    walk_passed_on(made, context, ask, to, &clause.body)?;
    made.variables.leave(around);
    made.all_since(start)
}

// A guard, which is true.
#[cycle(rows)]
fn walk_guard(made: &mut Generator, context: &Surroundings, guard: &Expr) -> Result<(), Memory>
    ensures { OnOk result (GeneratesGuard context.now made.old made.new (tree guard.now)) }
{
    let slot = made.next;
    walk_expression(made, context, Ask::Exactly(1), guard)?;
    made.holds(slot)
}

/// The body of a `letrec` of these definitions.
#[cycle(rows)]
pub fn walk_letrec(
    made: &mut Generator,
    context: &Surroundings,
    ask: Ask,
    body: &Expr,
    defs: &[FunDef],
) -> Result<(), Memory>
    ensures { OnOk result (GeneratesLetrec context.now made.old made.new ask (all_defs defs.now) (tree body.now)) }
{
    let results = made.take_run(passed_on(ask))?;
    let around = made.functions.len();
    made.define_all(defs)?;
    walk_passed_on(made, context, ask, results.as_slice(), body)?;
    made.functions.leave(around);
    Ok(())
}

// The first expression of a `try`, with the slots of `count` variables behind it.
#[cycle(rows)]
fn walk_first(
    made: &mut Generator,
    context: &Surroundings,
    count: usize,
    expr: &Expr,
) -> Result<List<Slot>, Memory>
    ensures slots { IfOk result (λ slots. slots ≡ slots_from (made.old.next + span (Exactly count) (tree expr.now)) count) }
    ensures rows { OnOk result (GeneratesFirst context.now made.old made.new count (tree expr.now)) }
{
    let values = walk_results(made, context, Ask::Exactly(count), expr)?;
    made.take_equal(count, values.as_slice())
}

// What a `try` does where its first expression gives values.
#[cycle(rows)]
fn walk_tried(
    made: &mut Generator,
    context: &Surroundings,
    ask: Ask,
    to: &[Slot],
    parts: &TryParts,
) -> Result<(), Memory>
    ensures { OnOk result (GeneratesTried context.now made.old made.new ask to.now parts.now) }
{
    let start = made.count();
    let slots = walk_first(made, context, parts.vars.len(), parts.arg.get())?;
    walk_under(
        made,
        context,
        ask,
        to,
        parts.vars.as_slice(),
        slots.as_slice(),
        parts.body.get(),
    )?;
    made.all_since(start)
}

// What a `try` does where its first expression fails.
#[cycle(rows)]
fn walk_handler(
    made: &mut Generator,
    context: &Surroundings,
    ask: Ask,
    to: &[Slot],
    parts: &TryParts,
) -> Result<(), Memory>
    ensures { OnOk result (GeneratesHandler context.now made.old made.new ask to.now parts.now) }
{
    let start = made.count();
    let slots = made.take_run(parts.catch_vars.len())?;
    walk_under(
        made,
        context,
        ask,
        to,
        parts.catch_vars.as_slice(),
        slots.as_slice(),
        parts.handler.get(),
    )?;
    made.all_since(start)
}

/// A `try`.
#[cycle(rows)]
pub fn walk_try(
    made: &mut Generator,
    context: &Surroundings,
    ask: Ask,
    parts: &TryParts,
) -> Result<(), Memory>
    ensures { OnOk result (GeneratesTry context.now made.old made.new ask parts.now) }
{
    let results = made.take_run(passed_on(ask))?;
    let start = made.count();
    walk_tried(made, context, ask, results.as_slice(), parts)?;
    walk_handler(made, context, ask, results.as_slice(), parts)?;
    made.any_since(start)
}

/// The clauses of a `receive`, each a row of its own, behind the slots of the results and that of the message.
#[cycle(rows)]
pub fn walk_messages(
    made: &mut Generator,
    context: &Surroundings,
    ask: Ask,
    clauses: &[Clause],
) -> Result<ReceiveSlots, Memory>
    ensures results { IfOk result (λ receive. receive.results ≡ slots_from made.old.next (passed_on ask)) }
    ensures start { IfOk result (λ receive. receive.start ≡ length made.old.members.items) }
    ensures rows { OnOk result (GeneratesMessages context.now made.old made.new ask (all_clauses clauses.now)) }
{
    let results = made.take_run(passed_on(ask))?;
    let message = made.take(1)?;
    let start = made.count();
    walk_clauses(made, context, ask, results.as_slice(), &[message], clauses)?;
    Ok(ReceiveSlots { results, start })
}

/// The action of a `receive` whose timeout has this slot: one row.
#[cycle(rows)]
pub fn walk_action(
    made: &mut Generator,
    context: &Surroundings,
    ask: Ask,
    to: &List<Slot>,
    timeout: Slot,
    action: &Expr,
) -> Result<(), Memory>
    ensures { OnOk result (GeneratesAction context.now made.old made.new ask to.now timeout (tree action.now)) }
{
    let start = made.count();
    walk_passed_on(made, context, ask, to.as_slice(), action)?;
    made.bound(timeout, all_naturals())?;
    made.all_since(start)
}
