ghost use Rattle.std.specs.Prelude.{◌≡◌, ℕ, ◌<◌, ◌^◌, length, slice_index_or, [], IfOk};
ghost use Rattle.summary_board.specs.Ascending.{AscendsBelow};

use std::alloc::Global;
use std::sync::atomic::{AtomicU64, Ordering};
use type_kinds::{List, Memory, Shared};

/// Chains of components: each component but the first of its chain calls the one before it. Its part
/// is its own number, and its output is that of its callee, or its part if it calls none: so the
/// number of the first of its chain. It counts its solves.
#[derive(Drop)]
pub struct Chains {
    alloc: Global,
    parts: List<Shared<u32>>,
    callees: List<List<u32>>,
    refused: Option<u32>,
    solves: AtomicU64,
    ghost as_many: { length callees ≡ length parts },
    ghost few: { length parts < 2 ^ 32 },
    ghost ascends: { (c : ℕ) → c < length parts → AscendsBelow c (slice_index_or callees c []) },
}

mod as_work;

// The callees of a component, in chains of this many.
#[tactic(auto, using(crate::proofs::Chained::nothing_ascends, crate::proofs::Chained::one_ascends))]
fn callees_in(alloc: Global, c: u32, chain: u32) -> Result<List<u32>, Memory>
    requires { 0 < chain }
    ensures { IfOk result (λ callees. AscendsBelow c callees) }
{
    let mut callees = List::new(alloc);
    if c % chain != 0 {
        callees.add(c - 1)?;
    }
    Ok(callees)
}

impl Chains {
    /// `count` components, in chains of `chain` each.
    pub fn new(alloc: Global, count: u32, chain: u32) -> Result<Chains, Memory>
        requires { 0 < chain }
    {
        let mut parts: List<Shared<u32>> = List::new(alloc);
        let mut callees: List<List<u32>> = List::new(alloc);
        for c in 0..count {
            parts.add(Shared::new(alloc, c)?)?;
            callees.add(callees_in(alloc, c, chain)?)?;
        }
        Ok(Chains {
            alloc,
            parts,
            callees,
            refused: None,
            solves: AtomicU64::new(0),
        })
    }

    /// The same work, but with no memory to solve the component of this part.
    pub fn refusing(self, part: u32) -> Chains {
        let Chains {
            alloc,
            parts,
            callees,
            refused: _,
            solves,
        } = self;
        Chains {
            alloc,
            parts,
            callees,
            refused: Some(part),
            solves,
        }
    }

    /// How often a component was solved.
    pub fn solves(&self) -> u64 {
        self.solves.load(Ordering::SeqCst)
    }
}
