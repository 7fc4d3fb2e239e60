ghost use Rattle.std.specs.Prelude.{◌≡◌, ◌≤◌, IfOk, replicate};
ghost use Rattle.summary_board.specs.Calls.{each_below};

use crate::progress::Progress;
use crate::work::Work;
use std::alloc::Global;
use type_kinds::{List, Memory, Shared};

/// The parts of the components below the count, in order.
#[tactic(auto, using(crate::proofs::Below::each_below_more))]
pub fn parts_of<W: Work>(
    alloc: Global,
    work: &W,
    count: u32,
) -> Result<List<Shared<W::Part>>, Memory>
    requires { count ≤ W.count_of work.now }
    ensures { IfOk result (λ parts. parts ≡ each_below count (W.part_of work.now)) }
{
    let mut parts: List<Shared<W::Part>> = List::new(alloc);
    for c in 0..count {
        parts.add(work.part(c).share()?)?;
    }
    Ok(parts)
}

/// The callees of the components below the count, in order.
#[tactic(auto, using(crate::proofs::Below::each_below_more))]
pub fn callees_of<W: Work>(alloc: Global, work: &W, count: u32) -> Result<List<List<u32>>, Memory>
    requires { count ≤ W.count_of work.now }
    ensures { IfOk result (λ callees. callees ≡ each_below count (W.callees_of work.now)) }
{
    let mut callees: List<List<u32>> = List::new(alloc);
    for c in 0..count {
        callees.add(work.callees(c).copy(alloc)?)?;
    }
    Ok(callees)
}

/// The progress of `count` components that all wait.
#[tactic(auto, using(std::proofs::lemmas::Grind::replicate_next))]
pub fn all_waiting<O: Drop>(alloc: Global, count: u32) -> Result<List<Progress<O>>, Memory>
    ensures { IfOk result (λ progress. progress ≡ replicate count Progress.Waiting) }
{
    let mut progress: List<Progress<O>> = List::new(alloc);
    for _c in 0..count {
        progress.add(Progress::Waiting)?;
    }
    Ok(progress)
}
