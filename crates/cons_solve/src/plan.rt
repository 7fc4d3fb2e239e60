//! What is kept of a constraint while it is solved: for each list which members name a slot, and for
//! each alternative what its last solution lowered.
ghost use Rattle.std.specs.Prelude.{◌≡◌, ◌<◌, ◌≤◌, [], ℕ, Some, None, IfOk, cond, drop, get_or, length, map, set};
ghost use Rattle.cons_tree.specs.Constraints.{all_of, any_of, constraints};
ghost use Rattle.cons_tree.specs.Environments.{Types};
ghost use Rattle.cons_tree.specs.Trails.{Trailed, Within};
ghost use Rattle.cons_solve.specs.declared.plan.Plan.TheVariants.{Blank};
ghost use Rattle.cons_solve.specs.steps.Alternatives.{now_of};
ghost use Rattle.cons_solve.specs.steps.Plans.{Good, GoodAny, listing, memo, memos, met, fallen};

use crate::alternatives::{lowered, write};
use crate::index::{Index, index_of};
use cons_tree::{Constraint, Slots, TrailEntry, type_facts};
use std::alloc::Global;
use type_kinds::{List, Memory};

/// What is kept of a constraint while it is solved.
#[derive(Drop)]
pub enum Plan {
    /// Nothing is known yet. Of a part nothing ever is.
    Blank,
    /// Of a list: the plans of its members, and which of them name a slot.
    All(List<Plan>, Index),
    /// Of alternatives: their plans, and what the last solution of each lowered, or `None` where it
    /// has no solution.
    Any(List<Plan>, List<Option<List<TrailEntry>>>),
}

/// Drops a plan.
pub fn discard_plan(_plan: Plan) {}

// As many blank plans as there are members, or none where all members are parts.
fn blanks(alloc: Global, members: &[Constraint]) -> Result<List<Plan>, Memory>
    ensures { IfOk result (λ plans. (i : ℕ) → get_or plans i Blank ≡ Blank) }
{
    let mut plans = List::new(alloc);
    if members
        .iter()
        .all(|member| matches!(member, Constraint::Part(_)))
    {
        return Ok(plans);
    }
    for _member in members {
        plans.add(Plan::Blank)?;
    }
    Ok(plans)
}

// `count` alternatives that have lowered nothing yet.
fn nothing_kept(alloc: Global, count: usize) -> Result<List<Option<List<TrailEntry>>>, Memory>
    ensures long { IfOk result (λ kept. length kept ≡ count) }
    ensures empty { IfOk result (λ kept. (i : ℕ) → get_or kept i (Some []) ≡ Some []) }
{
    let mut kept = List::new(alloc);
    for _at in 0..count {
        kept.add(Some(List::new(alloc)))?;
    }
    Ok(kept)
}

/// The plans of a list's members, and which members name a slot, from the list's plan. They are made
/// where it has none. `Memory` comes if allocation fails.
pub fn list_plan(
    alloc: Global,
    members: &[Constraint],
    plan: Plan,
) -> Result<(List<Plan>, Index), Memory>
    ensures { IfOk result (λ r. (xs : Types) → Good (all_of (constraints members.now)) (memo plan) xs
        → Good (all_of (constraints members.now)) (listing (memos r.0) r.1.namings) xs) }
{
    match plan {
        Plan::All(plans, index) => Ok((plans, index)),
        other => {
            discard_plan(other);
            let plans = blanks(alloc, members)?;
            let index = index_of(alloc, members)?;
            Ok((plans, index))
        }
    }
}

/// The plans of alternatives and what is kept of each, from their plan. They are made where it has
/// none. `Memory` comes if allocation fails.
pub fn choice_plan(
    alloc: Global,
    members: &[Constraint],
    plan: Plan,
) -> Result<(List<Plan>, List<Option<List<TrailEntry>>>), Memory>
    ensures { IfOk result (λ r. (xs : Types) → Good (any_of (constraints members.now)) (memo plan) xs
        → GoodAny (constraints members.now) (memos r.0) r.1 xs) }
{
    match plan {
        Plan::Any(plans, kept) => Ok((plans, kept)),
        other => {
            discard_plan(other);
            let plans = blanks(alloc, members)?;
            let kept = nothing_kept(alloc, members.len())?;
            Ok((plans, kept))
        }
    }
}

/// Puts an item at a position. Past the end it is dropped.
pub fn put<T: Drop>(items: &mut List<T>, at: usize, item: T)
    ensures { items.new ≡ set items.old at item }
{
    if at < items.len() {
        items.replace(at, item);
    }
}

/// Takes the plan at a position, and leaves a blank one there. Past the end plans are blank.
pub fn take_plan(plans: &mut List<Plan>, at: usize) -> Plan
    ensures taken { result ≡ get_or plans.old at Blank }
    ensures left { plans.new ≡ set plans.old at Blank }
{
    if at >= plans.len() {
        return Plan::Blank;
    }
    plans.replace(at, Plan::Blank)
}

/// What is kept of an alternative: the slots that it lowered, which the trail tells from the checkpoint on,
/// with their types; and nothing where it has no solution.
pub fn note(
    alloc: Global,
    alive: bool,
    slots: &Slots,
    checkpoint: usize,
) -> Result<Option<List<TrailEntry>>, Memory>
    requires { checkpoint ≤ length slots.now.trail }
    ensures { IfOk result (λ kept. kept ≡ cond alive (Some (map (now_of slots.now.types) (drop checkpoint slots.now.trail))) None) }
{
    if !alive {
        return Ok(None);
    }
    let lows = lowered(alloc, slots, &slots.trail.as_slice()[checkpoint..])?;
    Ok(Some(lows))
}

/// Lowers the slots of the entries to their types. If allocation fails, the array's contents are unspecified.
pub fn lower_kept(
    alloc: Global,
    mut lows: List<TrailEntry>,
    slots: &mut Slots,
) -> Result<(), Memory>
    requires { Within (length slots.old.types) lows }
    ensures value { IfOk result (λ _. slots.new.types ≡ fallen lows slots.old.types) }
    ensures trailed { IfOk result (λ _. Trailed slots.old slots.new) }
{
    type_facts();
    while let Some(low) = lows.pop() {
        let met = slots.meet_at(alloc, low.slot, low.ty)?;
        write(slots, low.slot, met)?;
    }
    Ok(())
}
