//! What is kept of the members of a constraint from one sweep to the next, so that each is solved on from its last solution.
ghost use Rattle.std.specs.Prelude.{◌≡◌, ◌≤◌, [], IfOk, IfNone, IfSome, cond, drop, get_or, length, map, set};
ghost use Rattle.cons_tree.specs.Constraints.{Cons, ConsList};
ghost use Rattle.cons_tree.specs.declared.parts.Part.{Part};
ghost use Rattle.cons_tree.specs.Environments.{Types};
ghost use Rattle.cons_tree.specs.Trails.{Trailed, Within};
ghost use Rattle.cons_solve.specs.steps.Alternatives.{now_of};
ghost use Rattle.cons_solve.specs.steps.Plans.{fallen};
ghost use Rattle.table_verify_sweeps.specs.declared.kept.Kept.TheVariants.{Blank};
ghost use Rattle.table_verify_sweeps.specs.steps.Memos.{dead, solved, memo, memos, IsRight, AreRight};

use crate::joins::{lowered, sink};
use cons_tree::{Slots, TrailEntry, type_facts};
use std::alloc::Global;
use type_kinds::{List, Memory};

/// What is kept of a member.
#[derive(Drop)]
pub enum Kept {
    /// Nothing yet.
    Blank,
    /// It has no solution.
    Dead,
    /// The slots that its last solution lowered with their types, and what is kept of its own members.
    Solved(List<TrailEntry>, List<Kept>),
}

/// Drops what was kept.
pub fn discard_kept(_kept: Kept) {}

fn discard_each(_kept: List<Kept>) {}

/// Lengthens the list to so many members, of which nothing is kept yet. `Memory` if allocation fails.
pub fn lengthen(kept: &mut List<Kept>, count: usize) -> Result<(), Memory>
    ensures { IfOk result (λ _. (cs : ConsList Part) (xs : Types) → AreRight cs (memos kept.old) xs → AreRight cs (memos kept.new) xs) }
{
    for _at in kept.len()..count {
        kept.add(Kept::Blank)?;
    }
    Ok(())
}

/// Takes what is kept of the member at a position, and leaves nothing there.
pub fn take(kept: &mut List<Kept>, at: usize) -> Kept
    ensures taken { result ≡ get_or kept.old at Blank }
    ensures left { kept.new ≡ set kept.old at Blank }
{
    if at >= kept.len() {
        return Kept::Blank;
    }
    kept.replace(at, Kept::Blank)
}

/// Puts what is kept of a member at its position. Past the end it is dropped.
pub fn put(kept: &mut List<Kept>, at: usize, one: Kept)
    ensures { kept.new ≡ set kept.old at one }
{
    if at >= kept.len() {
        discard_kept(one);
        return;
    }
    discard_kept(kept.replace(at, one));
}

/// What a member is to be solved on from, and nothing where it has no solution.
pub fn open(alloc: Global, kept: Kept) -> Option<(List<TrailEntry>, List<Kept>)>
    ensures none { IfNone result (memo kept ≡ dead) }
    ensures some { IfSome result (λ r. (c : Cons Part) (xs : Types) → IsRight c (memo kept) xs → IsRight c (solved r.0 (memos r.1)) xs) }
{
    match kept {
        Kept::Blank => Some((List::new(alloc), List::new(alloc))),
        Kept::Dead => None,
        Kept::Solved(lows, inner) => Some((lows, inner)),
    }
}

/// What is kept of a member that was solved: the slots that it lowered, which the trail tells from the checkpoint on, with their types, and
/// what is kept of its own members. Nothing is kept of one that has none. `Memory` if allocation fails.
pub fn close(
    alloc: Global,
    alive: bool,
    inner: List<Kept>,
    slots: &Slots,
    checkpoint: usize,
) -> Result<Kept, Memory>
    requires { checkpoint ≤ length slots.now.trail }
    ensures { IfOk result (λ kept. (c : Cons Part) (xs : Types)
        → IsRight c (cond alive (solved (map (now_of slots.now.types) (drop checkpoint slots.now.trail)) (memos inner)) dead) xs
        → IsRight c (memo kept) xs) }
{
    if !alive {
        discard_each(inner);
        return Ok(Kept::Dead);
    }
    if inner.is_empty() {
        return Ok(Kept::Blank);
    }
    let lows = lowered(alloc, slots, &slots.trail.as_slice()[checkpoint..])?;
    Ok(Kept::Solved(lows, inner))
}

/// Lowers the slots of the entries to their types. If allocation fails, the array's contents are unspecified.
pub fn lower_all(alloc: Global, mut lows: List<TrailEntry>, slots: &mut Slots) -> Result<(), Memory>
    requires { Within (length slots.old.types) lows }
    ensures value { IfOk result (λ _. slots.new.types ≡ fallen lows slots.old.types) }
    ensures trailed { IfOk result (λ _. Trailed slots.old slots.new) }
{
    type_facts();
    while let Some(low) = lows.pop() {
        let met = slots.meet_at(alloc, low.slot, low.ty)?;
        sink(slots, low.slot, met)?;
    }
    Ok(())
}
