//! How a component of a work is solved: by rounds.
ghost use Rattle.std.specs.Prelude.{◌≡◌, [], length, slice_index_or};
ghost use Rattle.cons_tree.specs.SameBy.{same_by_equal};
ghost use Rattle.comp_rounds.specs.Codes.{output_code, part_code};
ghost use Rattle.comp_rounds.specs.Parts.{written};
ghost use Rattle.comp_rounds.specs.Works.{callees_of, no_part, parts_of};

use super::CompWork;
use crate::component::solve_component;
use crate::part_numbers::number_of;
use crate::parts::{CompOut, CompPart};
use summary_board::Work;
use type_kinds::{List, Memory, Shared};

impl Work for CompWork {
    type Part = CompPart;

    type Out = CompOut;

    ghost count_of = { λ work. length (parts_of work) };

    ghost part_of = { λ work c. slice_index_or (parts_of work) c no_part };

    ghost callees_of = { λ work c. slice_index_or (callees_of work) c [] };

    ghost written = { written };

    fn count(&self) -> u32 {
        self.parts.len() as u32
    }

    fn part(&self, c: u32) -> &Shared<CompPart> {
        &self.parts.as_slice()[c as usize]
    }

    fn callees(&self, c: u32) -> &List<u32> {
        &self.callees.as_slice()[c as usize]
    }

    fn part_number(part: &CompPart) -> u64 {
        number_of(part)
    }

    fn solve(
        &self,
        part: &CompPart,
        inputs: &List<Shared<CompOut>>,
    ) -> Result<Shared<CompOut>, Memory> {
        let output = solve_component(self.alloc, part, inputs)?;
        Shared::new(self.alloc, output)
    }

    ghost ascending = { λ work c within. work.ascends c within };

    ghost same_part = { λ a b same. (same_by_equal part_code a b).0 same };

    ghost same_out = { λ a b same. (same_by_equal output_code a b).0 same };
}
