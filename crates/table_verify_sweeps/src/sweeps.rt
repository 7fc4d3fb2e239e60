//! The greatest solution of a constraint by plain sweeps over its members, on one array: each narrows the array in turn, again and again,
//! until nothing changes.
ghost use Rattle.std.specs.Prelude.{◌≡◌, ◌<◌, IfOk, IsTrue, Some, length};
ghost use Rattle.cons_tree.specs.Constraints.{all_of, any_of, constraint, constraints, only};
ghost use Rattle.cons_tree.specs.Environments.{on_types};
ghost use Rattle.cons_tree.specs.Trails.{answer, Trailed};
ghost use Rattle.cons_solve.specs.Environments.{environments, solution, Solves};
ghost use Rattle.cons_solve.specs.Solutions.{IsGreatest};
ghost use Rattle.table_verify_sweeps.specs.steps.Turns.{position_of};
ghost use Rattle.table_verify_sweeps.specs.steps.Memos.{memo, memos, AreRight, IsRight, MembersRight};

use crate::joins::{gather, lay};
use crate::kept::{Kept, close, discard_kept, lengthen, lower_all, open, put, take};
use cons_solve::environment_laws;
use cons_tree::{Constraint, Part, Slots, type_facts};
use std::alloc::Global;
use type_kinds::{List, Memory};

/// Narrows the array to the greatest solution of the constraint below it, and says whether an environment is left: where none is, the
/// constraint has no solution below the array. The trail tells what each slot was that changed. If allocation fails, the array's contents
/// are unspecified.
pub fn settle(alloc: Global, c: &Constraint, slots: &mut Slots) -> Result<bool, Memory>
    ensures greatest { IfOk result (λ alive. IsGreatest environments (Solves (constraint c.now)) slots.old.types (answer alive slots.new.types)) }
    ensures value { IfOk result (λ alive. solution (constraint c.now) slots.old.types ≡ answer alive slots.new.types) }
    ensures trailed { IfOk result (λ _. Trailed slots.old slots.new) }
{
    environment_laws();
    let (alive, kept) = solve(alloc, c, Kept::Blank, slots)?;
    discard_kept(kept);
    Ok(alive)
}

// Solves a constraint on from what is kept of it, and says what is kept of it then where the array is as before.
#[cycle(sweeping)]
fn solve(
    alloc: Global,
    c: &Constraint,
    kept: Kept,
    slots: &mut Slots,
) -> Result<(bool, Kept), Memory>
    requires { IsRight (constraint c.now) (memo kept) slots.old.types }
    ensures value { IfOk result (λ r. solution (constraint c.now) slots.old.types ≡ answer r.0 slots.new.types) }
    ensures trailed { IfOk result (λ _. Trailed slots.old slots.new) }
    ensures right { IfOk result (λ r. IsRight (constraint c.now) (memo r.1) slots.old.types) }
{
    environment_laws();
    type_facts();
    match open(alloc, kept) {
        None => Ok((false, Kept::Dead)),
        Some((lows, mut inner)) => {
            let checkpoint = slots.trail.len();
            lower_all(alloc, lows, slots)?;
            let alive = settle_kind(alloc, c, &mut inner, slots)?;
            let after = close(alloc, alive, inner, slots, checkpoint)?;
            Ok((alive, after))
        }
    }
}

// Narrows the array to the solution by the kind of the constraint, with what is kept of its members.
#[cycle(sweeping)]
fn settle_kind(
    alloc: Global,
    c: &Constraint,
    inner: &mut List<Kept>,
    slots: &mut Slots,
) -> Result<bool, Memory>
    requires { MembersRight (constraint c.now) (memos inner.old) slots.old.types }
    ensures value { IfOk result (λ alive. solution (constraint c.now) slots.old.types ≡ answer alive slots.new.types) }
    ensures trailed { IfOk result (λ _. Trailed slots.old slots.new) }
    ensures right { IfOk result (λ alive. IsTrue alive → MembersRight (constraint c.now) (memos inner.new) slots.new.types) }
{
    match c {
        Constraint::Part(part) => settle_part(alloc, part, slots),
        Constraint::All(members) => settle_all(alloc, members.as_slice(), inner, slots),
        Constraint::Any(members) => join_all(alloc, members.as_slice(), inner, slots),
    }
}

// Narrows by a part until nothing changes.
fn settle_part(alloc: Global, part: &Part, slots: &mut Slots) -> Result<bool, Memory>
    ensures value { IfOk result (λ alive. solution (only part.now) slots.old.types ≡ answer alive slots.new.types) }
    ensures trailed { IfOk result (λ _. Trailed slots.old slots.new) }
{
    environment_laws();
    'turns: loop {
        let checkpoint = slots.trail.len();
        let alive = slots.narrow(alloc, part)?;
        if !alive {
            return Ok(false);
        }
        if slots.trail.len() == checkpoint {
            return Ok(true);
        }
    }
}

// Sweeps over members until nothing changes, forward and backward in turn, so that what the last member says of the first slots is soon
// known there.
#[cycle(sweeping)]
fn settle_all(
    alloc: Global,
    members: &[Constraint],
    kept: &mut List<Kept>,
    slots: &mut Slots,
) -> Result<bool, Memory>
    requires { AreRight (constraints members.now) (memos kept.old) slots.old.types }
    ensures value { IfOk result (λ alive. solution (all_of (constraints members.now)) slots.old.types ≡ answer alive slots.new.types) }
    ensures trailed { IfOk result (λ _. Trailed slots.old slots.new) }
    ensures right { IfOk result (λ alive. IsTrue alive → AreRight (constraints members.now) (memos kept.new) slots.new.types) }
{
    environment_laws();
    lengthen(kept, members.len())?;
    let mut forward = true;
    'sweeps: loop {
        let checkpoint = slots.trail.len();
        let alive = sweep(alloc, members, forward, kept, slots)?;
        if !alive {
            return Ok(false);
        }
        if slots.trail.len() == checkpoint {
            return Ok(true);
        }
        forward = !forward;
    }
}

// The member of a turn.
fn position(forward: bool, count: usize, turn: usize) -> usize
    requires { turn < count }
    ensures { result ≡ position_of forward count turn }
{
    if forward { turn } else { count - 1 - turn }
}

// Solves each member once, from the first to the last, or back.
#[cycle(sweeping)]
fn sweep(
    alloc: Global,
    members: &[Constraint],
    forward: bool,
    kept: &mut List<Kept>,
    slots: &mut Slots,
) -> Result<bool, Memory>
    requires { AreRight (constraints members.now) (memos kept.old) slots.old.types }
    ensures value { IfOk result (λ alive. on_types (answer alive slots.new.types) (solution (all_of (constraints members.now)))
        ≡ solution (all_of (constraints members.now)) slots.old.types) }
    ensures settled { IfOk result (λ alive. IsTrue alive → length slots.new.trail ≡ length slots.old.trail
        → solution (all_of (constraints members.now)) slots.new.types ≡ Some slots.new.types) }
    ensures trailed { IfOk result (λ _. Trailed slots.old slots.new) }
    ensures right { IfOk result (λ alive. IsTrue alive → AreRight (constraints members.now) (memos kept.new) slots.new.types) }
{
    environment_laws();
    type_facts();
    let count = members.len();
    for turn in 0..count {
        let at = position(forward, count, turn);
        let (alive, after) = solve(alloc, &members[at], take(kept, at), slots)?;
        put(kept, at, after);
        if !alive {
            return Ok(false);
        }
    }
    Ok(true)
}

// Solves each alternative on the array, and puts the array back, and then lays the join of the solutions onto it.
#[cycle(sweeping)]
fn join_all(
    alloc: Global,
    members: &[Constraint],
    kept: &mut List<Kept>,
    slots: &mut Slots,
) -> Result<bool, Memory>
    requires { AreRight (constraints members.now) (memos kept.old) slots.old.types }
    ensures value { IfOk result (λ alive. solution (any_of (constraints members.now)) slots.old.types ≡ answer alive slots.new.types) }
    ensures trailed { IfOk result (λ _. Trailed slots.old slots.new) }
    ensures right { IfOk result (λ alive. IsTrue alive → AreRight (constraints members.now) (memos kept.new) slots.new.types) }
{
    environment_laws();
    type_facts();
    lengthen(kept, members.len())?;
    let checkpoint = slots.trail.len();
    let mut best = None;
    for at in 0..members.len() {
        let (alive, after) = solve(alloc, &members[at], take(kept, at), slots)?;
        put(kept, at, after);
        best = gather(alloc, alive, best, slots, checkpoint)?;
        slots.undo(checkpoint);
    }
    lay(best, slots)
}
