//! What boards solved before, kept to be found again.
ghost use Rattle.std.specs.Prelude.{◌≡◌, IfOk, IfSome, OnOk};

use crate::board::Board;
use crate::job::{Done, Job};
use crate::memo_work::MemoWork;
use crate::same::same_items;
use crate::work::Work;
use indexmap::IndexMap;
use std::alloc::Global;
use type_kinds::{List, Memory, Shared};

/// Outputs that were solved before, each the written one of its part and its inputs. An entry is found by the number of
/// its part; of two parts with the same number the later one is kept.
#[derive(Drop)]
pub struct Memo<W: Work> {
    pub(crate) entries: IndexMap<u64, Done<W>>,
}

impl<W: Work> Memo<W> {
    /// A memo of nothing. Takes no memory.
    pub fn new(alloc: Global) -> Memo<W> {
        Memo {
            entries: IndexMap::new(alloc),
        }
    }

    /// Keeps the entry of each component of a board that is done. `Memory` if allocation fails.
    pub fn of(alloc: Global, board: &Board<MemoWork<W>>) -> Result<Memo<W>, Memory> {
        let mut memo = Memo::new(alloc);
        for c in 0..board.count() {
            memo.keep(alloc, board, c)?;
        }
        Ok(memo)
    }

    // Keeps the entry of a component of a board, if it is done.
    fn keep(&mut self, alloc: Global, board: &Board<MemoWork<W>>, c: u32) -> Result<(), Memory> {
        let Some(done) = done_at(alloc, board, c)? else {
            return Ok(());
        };
        let number = W::part_number(done.job.part.get());
        match self.entries.insert(number, done) {
            Ok(_) => Ok(()),
            Err(_) => Err(Memory),
        }
    }

    /// The output of an entry with this part and these inputs, if there is one: the written output of these, whatever
    /// the memo has. Takes no memory.
    pub fn find(&self, part: &W::Part, inputs: &List<Shared<W::Out>>) -> Option<&Shared<W::Out>>
        ensures { IfSome result (λ output. output.now ≡ W.written part.now inputs.now) }
    {
        let number = W::part_number(part);
        let done = self.entries.get(&number)?;
        if done.job.part.get() != part {
            return None;
        }
        if same_items(done.job.inputs.as_slice(), inputs.as_slice()) {
            Some(&done.output)
        } else {
            None
        }
    }
}

// A second owner of each of them.
fn share_all<T: Drop>(alloc: Global, items: &List<Shared<T>>) -> Result<List<Shared<T>>, Memory>
    ensures { IfOk result (λ shared. shared ≡ items.now) }
{
    let mut shared: List<Shared<T>> = List::new(alloc);
    for item in items.as_slice() {
        shared.add(item.share()?)?;
    }
    Ok(shared)
}

// The entry of a component, if it is done.
fn done_at<W: Work>(
    alloc: Global,
    board: &Board<MemoWork<W>>,
    c: u32,
) -> Result<Option<Done<W>>, Memory> {
    let Some((part, inputs, output)) = board.entry(c) else {
        return Ok(None);
    };
    let part = part.share()?;
    let inputs = share_all(alloc, inputs)?;
    let output = output.share()?;
    Ok(Some(Done {
        job: Job {
            component: c,
            part,
            inputs,
        },
        output,
    }))
}
