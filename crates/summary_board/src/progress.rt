ghost use Rattle.std.specs.Prelude.{◌≡◌, List, ◌↔◌, ◌∷◌, [], ◌<◌, IsTrue, IfOk, length, slice_get, slice_set, MatchOption};
ghost use Rattle.summary_board.specs.BoardValue.{published, outputs_of};
ghost use Rattle.summary_board.specs.Machine.{called};

use std::alloc::Global;
use type_kinds::{List, Memory, Shared};

/// How far a component has come.
#[derive(Drop)]
pub enum Progress<O> {
    /// Nobody has taken it.
    Waiting,
    /// The worker with this seat has it.
    Out(u32),
    /// It was solved from these inputs, with this output.
    Done(List<Shared<O>>, Shared<O>),
}

/// The callees of a component.
pub fn called_at(callees: &List<List<u32>>, c: usize) -> &List<u32>
    requires { c < length callees.now }
    ensures { result.now ≡ called callees.now c }
{
    &callees.as_slice()[c]
}

/// The output of a component, if it is done.
pub fn output_at<O>(progress: &[Progress<O>], c: usize) -> Option<&Shared<O>>
    ensures { MatchOption result (published (slice_get progress.now c) ≡ []) (λ output. published (slice_get progress.now c) ≡ output.now ∷ []) }
{
    match progress.get(c) {
        Some(at) => match at {
            Progress::Done(_, output) => Some(output),
            _ => None,
        },
        None => None,
    }
}

/// The inputs and the output of a component, if it is done.
pub fn done_at<O>(progress: &[Progress<O>], c: usize) -> Option<(&List<Shared<O>>, &Shared<O>)>
    ensures { MatchOption result ((inputs : List O) (output : O) → slice_get progress.now c ≡ Some (Progress.Done inputs output)
        → ⊥) (λ it. slice_get progress.now c ≡ Some (Progress.Done it.0.now it.1.now)) }
{
    match progress.get(c) {
        Some(at) => match at {
            Progress::Done(inputs, output) => Some((inputs, output)),
            _ => None,
        },
        None => None,
    }
}

/// The outputs that are published for these components.
#[tactic(auto, using(crate::proofs::Outputs::outputs_of_next))]
pub fn outputs<O: Drop>(
    alloc: Global,
    progress: &List<Progress<O>>,
    callees: &List<u32>,
) -> Result<List<Shared<O>>, Memory>
    ensures { IfOk result (λ outputs. outputs ≡ outputs_of progress.now callees.now) }
{
    let mut outputs: List<Shared<O>> = List::new(alloc);
    for c in callees.as_slice() {
        match output_at(progress.as_slice(), *c as usize) {
            Some(output) => outputs.add(output.share()?)?,
            None => {}
        }
    }
    Ok(outputs)
}

/// Sets how far a component has come. Takes no memory.
pub fn set_progress<O: Drop>(progress: &mut List<Progress<O>>, c: usize, at: Progress<O>)
    requires { c < length progress.old }
    ensures { progress.new ≡ slice_set progress.old c at }
{
    progress.replace(c, at);
}

/// Whether the component is out with this seat.
pub fn is_out_at<O>(progress: &List<Progress<O>>, c: usize, seat: u32) -> bool
    ensures { IsTrue result ↔ (slice_get progress.now c ≡ Some (Progress.Out seat)) }
{
    match progress.as_slice().get(c) {
        Some(at) => match at {
            Progress::Out(it) => *it == seat,
            _ => false,
        },
        None => false,
    }
}
