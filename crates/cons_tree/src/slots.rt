//! An array of types that is narrowed in position, and the trail that tells what it was.
ghost use Rattle.std.specs.Prelude.{◌≡◌, ◌++◌, replicate, IfOk, OnOk};
ghost use Rattle.type_lattice.specs.Types.{any as any_type, type_code};
ghost use Rattle.std.specs.Coded.{Coded-set};

use crate::parts::Slot;
use crate::signatures::discard;
use std::alloc::Global;
use type_kinds::{List, Memory, Shared};
use type_lattice::Ty;

/// A slot, with a type that it had.
#[derive(Drop)]
pub struct TrailEntry {
    pub slot: Slot,
    pub ty: Shared<Ty>,
}

/// A type for each slot, shared by the slots that were given it, and a trail: the slots that were lowered,
/// with what they were, the oldest first.
#[derive(Drop)]
pub struct Slots {
    pub types: List<Shared<Ty>>,
    pub trail: List<TrailEntry>,
    // what a slot past the end may have
    every: Ty,
    ghost is_every: { every ≡ any_type } by { Coded-set type_code every any_type },
}

// Drops a type that is shared.
fn discard_shared(_ty: Shared<Ty>) {}

// Any, with one owner.
fn shared_any(alloc: Global) -> Result<Shared<Ty>, Memory>
    ensures { IfOk result (λ ty. ty ≡ any_type) }
{
    Shared::new(alloc, Ty::any())
}

// Adds a type that is shared, `count` times.
fn add_each(types: &mut List<Shared<Ty>>, ty: &Shared<Ty>, count: u64) -> Result<(), Memory>
    ensures { OnOk result (types.new ≡ types.old ++ replicate count ty.now) }
{
    for _ in 0..count {
        types.add(ty.share()?)?;
    }
    Ok(())
}

/// Adds any, `count` times, which all of them share. `Memory` comes if allocation fails.
pub fn add_anys(alloc: Global, types: &mut List<Shared<Ty>>, count: u64) -> Result<(), Memory>
    ensures { OnOk result (types.new ≡ types.old ++ replicate count any_type) }
{
    let every = shared_any(alloc)?;
    let answer = add_each(types, &every, count);
    discard_shared(every);
    answer
}

// Drops an entry.
fn discard_trail_entry(_entry: TrailEntry) {}

// Drops a trail.
fn discard_trail(_trail: List<TrailEntry>) {}

/// Drops an array.
pub fn discard_slots(_slots: Slots) {}

mod lowering;
