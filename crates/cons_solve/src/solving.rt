//! The greatest solution of a constraint, on one array.
ghost use Rattle.std.specs.Prelude.{◌≡◌, IfOk, IsTrue, Some, length};
ghost use Rattle.cons_tree.specs.Constraints.{only, all_of, constraint, constraints};
ghost use Rattle.cons_tree.specs.Environments.{Types};
ghost use Rattle.cons_tree.specs.Narrowing.{narrowed};
ghost use Rattle.cons_tree.specs.Trails.{answer, Trailed};
ghost use Rattle.cons_solve.specs.Environments.{environments, solution};
ghost use Rattle.cons_solve.specs.steps.Passes.{unions};
ghost use Rattle.cons_solve.specs.steps.Positions.{Covers};
ghost use Rattle.cons_solve.specs.steps.Plans.{Good, GoodEach, GoodAny, IsKept, memo, memos};

use crate::alternatives::{apply_join, gather};
use crate::index::Index;
use crate::laws::environment_laws;
use crate::plan::{Plan, choice_plan, discard_plan, list_plan, lower_kept, note, put, take_plan};
use crate::queue::Queue;
use cons_tree::{Constraint, Part, Slots, TrailEntry, frame_law, type_facts};
use std::alloc::Global;
use type_kinds::{List, Memory};

/// Narrows the array to the greatest solution of the constraint below it, and says whether an
/// environment is left. The trail tells what each slot was that changed. Each part that is narrowed
/// counts as a visit. If allocation fails, the array's contents are unspecified.
pub fn solve_slots(
    alloc: Global,
    c: &Constraint,
    slots: &mut Slots,
    visits: &mut u64,
) -> Result<bool, Memory>
    ensures value { IfOk result (λ alive. solution (constraint c.now) slots.old.types ≡ answer alive slots.new.types) }
    ensures trailed { IfOk result (λ _. Trailed slots.old slots.new) }
{
    let (alive, plan) = solve_plan(alloc, c, Plan::Blank, slots, visits)?;
    discard_plan(plan);
    Ok(alive)
}

// The same, on from what the plan keeps, with the plan that is right for what is left of the array,
// and so for all that is below it.
#[cycle(solving)]
fn solve_plan(
    alloc: Global,
    c: &Constraint,
    plan: Plan,
    slots: &mut Slots,
    visits: &mut u64,
) -> Result<(bool, Plan), Memory>
    requires { Good (constraint c.now) (memo plan) slots.old.types }
    ensures value { IfOk result (λ r. solution (constraint c.now) slots.old.types ≡ answer r.0 slots.new.types) }
    ensures trailed { IfOk result (λ _. Trailed slots.old slots.new) }
    ensures good { IfOk result (λ r. IsTrue r.0 → Good (constraint c.now) (memo r.1) slots.new.types) }
{
    environment_laws();
    match c {
        Constraint::Part(part) => {
            let alive = settle(alloc, part, slots, visits)?;
            Ok((alive, plan))
        }
        Constraint::All(members) => {
            let (mut plans, index) = list_plan(alloc, members.as_slice(), plan)?;
            let alive = work(alloc, members.as_slice(), &index, &mut plans, slots, visits)?;
            Ok((alive, Plan::All(plans, index)))
        }
        Constraint::Any(members) => {
            let (mut plans, mut kept) = choice_plan(alloc, members.as_slice(), plan)?;
            let alive = join_each(
                alloc,
                members.as_slice(),
                &mut plans,
                &mut kept,
                slots,
                visits,
            )?;
            Ok((alive, Plan::Any(plans, kept)))
        }
    }
}

// Narrows by a part until nothing changes.
fn settle(alloc: Global, part: &Part, slots: &mut Slots, visits: &mut u64) -> Result<bool, Memory>
    ensures value { IfOk result (λ alive. solution (only part.now) slots.old.types ≡ answer alive slots.new.types) }
    ensures trailed { IfOk result (λ _. Trailed slots.old slots.new) }
{
    environment_laws();
    'turns: loop {
        *visits = visits.saturating_add(1);
        let checkpoint = slots.trail.len();
        let count = slots.types.len();
        let alive = slots.narrow(alloc, part)?;
        if !alive {
            return Ok(false);
        }
        if slots.trail.len() == checkpoint {
            return Ok(true);
        }
        if is_settled_at_once(part, count) {
            return Ok(true);
        }
    }
}

// Whether narrowing an array of `count` slots twice by a part is narrowing it once: a type, or an equality of two slots.
fn is_settled_at_once(part: &Part, count: usize) -> bool
    ensures { IsTrue result → (xs ys : Types) → length xs ≡ count → narrowed part.now xs ≡ Some ys → narrowed part.now ys ≡ Some ys }
{
    type_facts();
    match part {
        Part::Bound(slot, _) => (*slot as usize) < count,
        Part::Equal(slot, other) => {
            if *slot == *other || (*slot as usize) >= count {
                return false;
            }
            (*other as usize) < count
        }
        _ => false,
    }
}

// Solves members that wait until none does. All wait at first, and then those that name a slot which
// another member lowered.
#[cycle(solving)]
fn work(
    alloc: Global,
    members: &[Constraint],
    index: &Index,
    plans: &mut List<Plan>,
    slots: &mut Slots,
    visits: &mut u64,
) -> Result<bool, Memory>
    requires covers { Covers members.now index.now.namings }
    requires good { GoodEach (constraints members.now) (memos plans.old) slots.old.types }
    ensures value { IfOk result (λ alive. solution (all_of (constraints members.now)) slots.old.types ≡ answer alive slots.new.types) }
    ensures trailed { IfOk result (λ _. Trailed slots.old slots.new) }
    ensures good { IfOk result (λ alive. IsTrue alive → GoodEach (constraints members.now) (memos plans.new) slots.new.types) }
{
    environment_laws();
    type_facts();
    frame_law();
    let mut queue = Queue::all(alloc, members)?;
    'turns: loop {
        let Some(at) = queue.next()? else {
            return Ok(true);
        };
        let checkpoint = slots.trail.len();
        let former = take_plan(plans, at);
        let (alive, plan) = solve_plan(alloc, &members[at], former, slots, visits)?;
        put(plans, at, plan);
        if !alive {
            return Ok(false);
        }
        queue.wake(members, at, index, &slots.trail.as_slice()[checkpoint..])?;
    }
}

// Solves an alternative, on from what its last solution lowered.
#[cycle(solving)]
fn solve_on(
    alloc: Global,
    c: &Constraint,
    plan: Plan,
    lows: List<TrailEntry>,
    slots: &mut Slots,
    visits: &mut u64,
) -> Result<(bool, Plan), Memory>
    requires { IsKept (constraint c.now) (Some lows) (Good (constraint c.now) (memo plan)) slots.old.types }
    ensures value { IfOk result (λ r. solution (constraint c.now) slots.old.types ≡ answer r.0 slots.new.types) }
    ensures trailed { IfOk result (λ _. Trailed slots.old slots.new) }
    ensures good { IfOk result (λ r. IsTrue r.0 → Good (constraint c.now) (memo r.1) slots.new.types) }
{
    environment_laws();
    type_facts();
    lower_kept(alloc, lows, slots)?;
    solve_plan(alloc, c, plan, slots, visits)
}

// Solves each alternative on the array, on from what its last solution lowered, and puts the array
// back, and then lays the join of the solutions onto it. One that has no solution has none further
// down.
#[cycle(solving)]
fn join_each(
    alloc: Global,
    members: &[Constraint],
    plans: &mut List<Plan>,
    kept: &mut List<Option<List<TrailEntry>>>,
    slots: &mut Slots,
    visits: &mut u64,
) -> Result<bool, Memory>
    requires { GoodAny (constraints members.now) (memos plans.old) kept.old slots.old.types }
    ensures value { IfOk result (λ alive. unions environments (constraints members.now) slots.old.types ≡ answer alive slots.new.types) }
    ensures trailed { IfOk result (λ _. Trailed slots.old slots.new) }
    ensures good { IfOk result (λ alive. IsTrue alive → GoodAny (constraints members.now) (memos plans.new) kept.new slots.new.types) }
{
    environment_laws();
    type_facts();
    let checkpoint = slots.trail.len();
    let mut best = None;
    for at in 0..members.len() {
        let member = &members[at];
        match kept.replace(at, None) {
            None => {}
            Some(lows) => {
                let former = take_plan(plans, at);
                let (alive, plan) = solve_on(alloc, member, former, lows, slots, visits)?;
                put(plans, at, plan);
                put(kept, at, note(alloc, alive, slots, checkpoint)?);
                best = gather(alloc, alive, best, slots, checkpoint)?;
                slots.undo(checkpoint);
            }
        }
    }
    apply_join(best, slots)
}
