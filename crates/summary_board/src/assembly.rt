ghost use Rattle.std.specs.Prelude.{◌≡◌, ◌<◌, ◌++◌, ℕ, IfOk, length, slice_get};
ghost use Rattle.std.specs.Option.{option_to_list};
ghost use Rattle.summary_board.specs.Solved.{picked, solved};

use crate::board::Board;
use crate::work::Work;
use std::alloc::Global;
use type_kinds::{List, Memory, Shared};

// Adds a second owner of the item at a position, if there is one.
#[tactic(auto, using(crate::proofs::Picks::nothing_there))]
fn add_at<T: Drop>(
    picked: &mut List<Shared<T>>,
    items: &List<Shared<T>>,
    at: usize,
) -> Result<(), Memory>
    ensures { IfOk result (λ _. picked.new ≡ picked.old ++ option_to_list (slice_get items.now at)) }
{
    if at < items.len() {
        picked.add(items.at(at).share()?)
    } else {
        Ok(())
    }
}

// The items at these positions.
#[tactic(auto, using(crate::proofs::Picks::picked_next))]
fn pick<T: Drop>(
    alloc: Global,
    items: &List<Shared<T>>,
    positions: &List<u32>,
) -> Result<List<Shared<T>>, Memory>
    ensures { IfOk result (λ it. it ≡ picked items.now positions.now) }
{
    let mut picked: List<Shared<T>> = List::new(alloc);
    for at in positions.as_slice() {
        add_at(&mut picked, items, *at as usize)?;
    }
    Ok(picked)
}

// The written output of a component: from the board if it has the entry, else solved here.
fn output<W: Work>(
    work: &W,
    board: &Board<W>,
    c: u32,
    inputs: &List<Shared<W::Out>>,
) -> Result<Shared<W::Out>, Memory>
    requires { c < W.count_of work.now }
    ensures { IfOk result (λ output. output ≡ W.written (W.part_of work.now c) inputs.now) }
{
    let part = work.part(c).get();
    match board.find(c, part, inputs) {
        Some(output) => output.share(),
        None => work.solve(part, inputs),
    }
}

/// The written output of each component of a work, whatever the board has. Each component is looked
/// up on the board by its part and its inputs, and solved here if it isn't there, so the answer
/// doesn't depend on the board, on its history, or on what work it was made of.
#[tactic(auto, using(crate::proofs::Picks::solved_more))]
pub fn assemble<W: Work>(
    alloc: Global,
    work: &W,
    board: &Board<W>,
) -> Result<List<Shared<W::Out>>, Memory>
    ensures all { IfOk result (λ outputs. outputs ≡ solved W.written (W.part_of work.now) (W.callees_of work.now) (W.count_of work.now)) }
    ensures count { IfOk result (λ outputs. length outputs ≡ W.count_of work.now) }
    ensures each { IfOk result (λ outputs. (c : ℕ) → c < W.count_of work.now
        → slice_get outputs c ≡ Some (W.written (W.part_of work.now c) (picked outputs (W.callees_of work.now c)))) }
{
    let mut outputs: List<Shared<W::Out>> = List::new(alloc);
    for c in 0..work.count() {
        let inputs = pick(alloc, &outputs, work.callees(c))?;
        outputs.add(output(work, board, c, &inputs)?)?;
    }
    Ok(outputs)
}
