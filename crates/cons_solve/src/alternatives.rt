//! The join of the solutions of alternatives, on the slots that the first of them lowered.
ghost use Rattle.std.specs.Prelude.{◌≡◌, ◌<◌, ◌≤◌, IfOk, IsTrue, length, set, drop, map};
ghost use Rattle.type_lattice.specs.Types.{Below, AreBelow};
ghost use Rattle.cons_tree.specs.Environments.{type_at};
ghost use Rattle.cons_tree.specs.Trails.{answer, laid, Trailed, Within};
ghost use Rattle.cons_solve.specs.Environments.{environments};
ghost use Rattle.cons_solve.specs.Solutions.{joined};
ghost use Rattle.cons_solve.specs.steps.Alternatives.{now_of, raised_by, best_of, Kept, KeptLows};

use cons_tree::{Slot, Slots, TrailEntry, type_facts};
use std::alloc::Global;
use type_kinds::{List, Memory, Shared};
use type_lattice::{Ty, type_laws};

// Drops a type.
fn discard(_ty: Shared<Ty>) {}

// Drops an entry, or entries.
fn discard_trail_entry(_entry: TrailEntry) {}

fn discard_trail_entries(_entries: List<TrailEntry>) {}

/// The slots of the entries, with their types now. `Memory` comes if allocation fails.
pub fn lowered(
    alloc: Global,
    slots: &Slots,
    told: &[TrailEntry],
) -> Result<List<TrailEntry>, Memory>
    ensures { IfOk result (λ lows. lows ≡ map (now_of slots.now.types) told.now) }
{
    let mut lows = List::new(alloc);
    for former in told {
        let ty = slots.shared_at(alloc, former.slot)?;
        lows.add(TrailEntry {
            slot: former.slot,
            ty,
        })?;
    }
    Ok(lows)
}

// The slots of the entries, with the joins of the entries' types and those in the array.
fn raised(alloc: Global, slots: &Slots, lows: &[TrailEntry]) -> Result<List<TrailEntry>, Memory>
    ensures { IfOk result (λ higher. higher ≡ map (raised_by slots.now.types) lows.now) }
{
    let mut higher = List::new(alloc);
    for low in lows {
        let ty = slots.join_at(alloc, low.slot, &low.ty)?;
        higher.add(TrailEntry { slot: low.slot, ty })?;
    }
    Ok(higher)
}

/// Takes what an alternative left of the array into the join of those before it, of which there may
/// be none. The trail from the checkpoint on tells what the array was before.
pub fn gather(
    alloc: Global,
    alive: bool,
    best: Option<List<TrailEntry>>,
    slots: &Slots,
    checkpoint: usize,
) -> Result<Option<List<TrailEntry>>, Memory>
    requires checkpoint { checkpoint ≤ length slots.now.trail }
    requires within { Within (length slots.now.types) (drop checkpoint slots.now.trail) }
    requires below { IsTrue alive → AreBelow slots.now.types (laid (drop checkpoint slots.now.trail) slots.now.types) }
    requires kept { Kept best (laid (drop checkpoint slots.now.trail) slots.now.types) }
    ensures kept { IfOk result (λ new. Kept new (laid (drop checkpoint slots.now.trail) slots.now.types)) }
    ensures value { let begin = laid (drop checkpoint slots.now.trail) slots.now.types in IfOk result
        (λ new. joined environments (best_of best begin) (answer alive slots.now.types) ≡ best_of new begin) }
{
    type_facts();
    if !alive {
        return Ok(best);
    }
    match best {
        None => {
            let first = lowered(alloc, slots, &slots.trail.as_slice()[checkpoint..])?;
            Ok(Some(first))
        }
        Some(lows) => {
            let higher = raised(alloc, slots, lows.as_slice())?;
            discard_trail_entries(lows);
            Ok(Some(higher))
        }
    }
}

/// Puts a smaller type into a slot. The trail tells what was there, unless nothing changes. If
/// allocation fails, the array's contents are unspecified.
pub fn write(slots: &mut Slots, slot: Slot, ty: Shared<Ty>) -> Result<(), Memory>
    requires position { slot < length slots.old.types }
    requires below { Below ty (type_at slots.old.types slot) }
    ensures value { IfOk result (λ _. slots.new.types ≡ set slots.old.types slot ty) }
    ensures trailed { IfOk result (λ _. Trailed slots.old slots.new) }
{
    type_laws();
    if slots.at(slot).leq(ty.get()) {
        discard(ty);
        return Ok(());
    }
    let former = slots.types.replace(slot as usize, ty);
    match slots.trail.push(TrailEntry { slot, ty: former }) {
        Ok(()) => Ok(()),
        Err((entry, Memory)) => {
            discard_trail_entry(entry);
            Err(Memory)
        }
    }
}

// Lays the entries onto the array, the last first.
fn apply_each(mut lows: List<TrailEntry>, slots: &mut Slots) -> Result<(), Memory>
    requires { KeptLows lows slots.old.types }
    ensures value { IfOk result (λ _. slots.new.types ≡ laid lows slots.old.types) }
    ensures trailed { IfOk result (λ _. Trailed slots.old slots.new) }
{
    while let Some(low) = lows.pop() {
        write(slots, low.slot, low.ty)?;
    }
    Ok(())
}

/// Lays the join of the alternatives onto the array, and says whether there was a solution. If
/// allocation fails, the array's contents are unspecified.
pub fn apply_join(best: Option<List<TrailEntry>>, slots: &mut Slots) -> Result<bool, Memory>
    requires { Kept best slots.old.types }
    ensures value { IfOk result (λ alive. best_of best slots.old.types ≡ answer alive slots.new.types) }
    ensures trailed { IfOk result (λ _. Trailed slots.old slots.new) }
{
    match best {
        None => Ok(false),
        Some(lows) => {
            apply_each(lows, slots)?;
            Ok(true)
        }
    }
}
