ghost use Rattle.std.specs.Prelude.{◌≡◌, ℕ, ◌<◌, length, slice_index, slice_index_or, [], IfOk};
ghost use Rattle.worker_crew_tests.specs.First.{first_or};

use super::Chains;
use std::sync::atomic::Ordering;
use summary_board::Work;
use type_kinds::{List, Memory, Shared};

impl Work for Chains {
    type Part = u32;

    type Out = u32;

    ghost count_of = { λ it. length it.parts };

    ghost part_of = { λ it c. slice_index it.parts c };

    ghost callees_of = { λ it c. slice_index_or it.callees c [] };

    ghost written = { first_or };

    fn count(&self) -> u32 {
        self.parts.len() as u32
    }

    fn part(&self, c: u32) -> &Shared<u32> {
        &self.parts.as_slice()[c as usize]
    }

    fn callees(&self, c: u32) -> &List<u32> {
        &self.callees.as_slice()[c as usize]
    }

    fn part_number(part: &u32) -> u64 {
        u64::from(*part)
    }

    fn solve(&self, part: &u32, inputs: &List<Shared<u32>>) -> Result<Shared<u32>, Memory> {
        self.solves.fetch_add(1, Ordering::SeqCst);
        if self.refused == Some(*part) {
            return Err(Memory);
        }
        let output = match inputs.as_slice().first() {
            Some(first) => *first.get(),
            None => *part,
        };
        Shared::new(self.alloc, output)
    }

    ghost ascending = { λ it c within. it.ascends c within };

    ghost use Rattle.std.proofs.Common.{rules};

    ghost same_part = { Prim.search rules };

    ghost same_out = { Prim.search rules };
}
