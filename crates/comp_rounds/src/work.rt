//! The components of a program as a work, which a board hands out to workers.
ghost use Rattle.std.specs.Prelude.{◌≡◌, ℕ, ◌<◌, ◌^◌, [], IfOk, length, slice_index_or};
ghost use Rattle.summary_board.specs.Ascending.{AscendsBelow};

use crate::parts::CompPart;
use std::alloc::Global;
use type_kinds::{List, Memory, Shared};

/// Components, each with its part and with the components that it calls, all of lower numbers.
#[derive(Drop)]
pub struct CompWork {
    alloc: Global,
    parts: List<Shared<CompPart>>,
    callees: List<List<u32>>,
    ghost as_many: { length callees ≡ length parts },
    ghost few: { length parts < 2 ^ 32 },
    ghost ascends: { (c : ℕ) → c < length parts → AscendsBelow c (slice_index_or callees c []) },
}

mod solving;

/// Drops a part.
pub fn discard_part(_part: CompPart) {}

// Drops parts.
fn discard_parts(_parts: List<Shared<CompPart>>) {}

// The parts, each to be shared. If allocation fails they are dropped.
fn shared(alloc: Global, parts: List<CompPart>) -> Result<List<Shared<CompPart>>, Memory>
    ensures { IfOk result (λ made. made ≡ parts) }
{
    let mut made = List::new(alloc);
    for part in parts.into_vec() {
        let part = match Shared::new(alloc, part) {
            Ok(part) => part,
            Err(Memory) => return Err(Memory),
        };
        match made.add(part) {
            Ok(()) => {}
            Err(Memory) => return Err(Memory),
        }
    }
    Ok(made)
}

impl CompWork {
    ghost use Rattle.comp_rounds.specs.Works.{callees_of, parts_of};

    /// The work of these parts, where the component of each part calls those in the list at its position. If allocation
    /// fails everything is dropped.
    pub fn new(
        alloc: Global,
        parts: List<CompPart>,
        callees: List<List<u32>>,
    ) -> Result<CompWork, Memory>
        requires as_many { length callees ≡ length parts }
        requires few { length parts < 2 ^ 32 }
        requires ascends { (c : ℕ) → c < length parts → AscendsBelow c (slice_index_or callees c []) }
        ensures parts { IfOk result (λ work. parts_of work ≡ parts) }
        ensures callees { IfOk result (λ work. callees_of work ≡ callees) }
    {
        let parts = shared(alloc, parts)?;
        Ok(CompWork {
            alloc,
            parts,
            callees,
        })
    }
}
