//! A work that looks into a memo before it solves.
ghost use Rattle.std.specs.Prelude.{◌≡◌, ◌<◌, IfOk};

use crate::memo::Memo;
use crate::same::same_items;
use crate::work::Work;
use type_kinds::{List, Memory, Shared};

/// A work with a memo: what the memo has isn't solved again.
#[derive(Drop)]
pub struct MemoWork<W: Work> {
    work: W,
    memo: Memo<W>,
}

impl<W: Work> MemoWork<W> {
    /// The work, with this memo. Takes no memory.
    pub fn new(work: W, memo: Memo<W>) -> MemoWork<W>
        ensures { result.work ≡ work }
    {
        MemoWork { work, memo }
    }

    /// The work.
    pub fn work(&self) -> &W
        ensures { result.now ≡ self.now.work }
    {
        &self.work
    }

    /// The work and the memo. Takes no memory.
    pub fn into_parts(self) -> (W, Memo<W>)
        ensures { result.0 ≡ self.work }
    {
        (self.work, self.memo)
    }
}

impl<W: Work> Work for MemoWork<W> {
    type Part = W::Part;

    type Out = W::Out;

    ghost count_of = { λ it. W.count_of it.work };

    ghost part_of = { λ it. W.part_of it.work };

    ghost callees_of = { λ it. W.callees_of it.work };

    ghost written = { W.written };

    fn count(&self) -> u32 {
        self.work.count()
    }

    fn part(&self, c: u32) -> &Shared<W::Part> {
        self.work.part(c)
    }

    fn callees(&self, c: u32) -> &List<u32> {
        self.work.callees(c)
    }

    fn part_number(part: &W::Part) -> u64 {
        W::part_number(part)
    }

    fn solve(
        &self,
        part: &W::Part,
        inputs: &List<Shared<W::Out>>,
    ) -> Result<Shared<W::Out>, Memory> {
        let number = W::part_number(part);
        if let Some(done) = self.memo.entries.get(&number) {
            if done.job.part.get() == part
                && same_items(done.job.inputs.as_slice(), inputs.as_slice())
            {
                return done.output.share();
            }
        }
        self.work.solve(part, inputs)
    }

    ghost ascending = { λ it. W.ascending it.work };

    ghost same_part = { W.same_part };

    ghost same_out = { W.same_out };
}
