ghost use Rattle.std.specs.Prelude.{◌≡◌, ◌↔◌, true, IsTrue, IfSome, IfNone, slice_get};
ghost use Rattle.summary_board.specs.BoardValue.{outputs_of};

use crate::progress::{Progress, output_at};
use crate::work::Work;
use type_kinds::{List, Shared};

/// Whether two parts are the same value.
pub fn same_part<W: Work>(a: &W::Part, b: &W::Part) -> bool
    ensures { IsTrue result ↔ (a.now ≡ b.now) }
{
    a == b
}

// Whether two outputs are the same value.
fn same_out<W: Work>(a: &W::Out, b: &W::Out) -> bool
    ensures { IsTrue result ↔ (a.now ≡ b.now) }
{
    a == b
}

/// Whether two lists have the same items in the same order.
pub fn same_items<O: Eq>(a: &[Shared<O>], b: &[Shared<O>]) -> bool
    requires { (x y : O) → O.eq x y ≡ true → x ≡ y }
    ensures { IsTrue result ↔ (a.now ≡ b.now) }
{
    if a.len() != b.len() {
        return false;
    }
    for i in 0..a.len() {
        if a[i].get() != b[i].get() {
            return false;
        }
    }
    true
}

// Whether two lists have the same outputs in the same order.
fn same_outs<W: Work>(a: &[Shared<W::Out>], b: &[Shared<W::Out>]) -> bool
    ensures { IsTrue result ↔ (a.now ≡ b.now) }
{
    same_items(a, b)
}

/// Whether the inputs are the outputs that are published for these components.
#[tactic(auto, using(crate::proofs::Outputs::outputs_of_next))]
pub fn are_outputs<W: Work>(
    progress: &List<Progress<W::Out>>,
    callees: &List<u32>,
    inputs: &List<Shared<W::Out>>,
) -> bool
    ensures { IsTrue result ↔ (inputs.now ≡ outputs_of progress.now callees.now) }
{
    let mut left = inputs.as_slice();
    for c in callees.as_slice() {
        match output_at(progress.as_slice(), *c as usize) {
            Some(output) => match left.split_first() {
                Some((first, rest)) => {
                    if !same_out::<W>(first.get(), output.get()) {
                        return false;
                    }
                    left = rest;
                }
                None => return false,
            },
            None => {}
        }
    }
    left.is_empty()
}

/// The output of a component, if it is done and was solved from these inputs.
pub fn solved_from<'a, W: Work>(
    progress: &'a List<Progress<W::Out>>,
    c: usize,
    inputs: &List<Shared<W::Out>>,
) -> Option<&'a Shared<W::Out>>
    ensures some { IfSome result (λ output. slice_get progress.now c ≡ Some (Progress.Done inputs.now output.now)) }
    ensures none { IfNone result ((output : W.Out) → slice_get progress.now c ≡ Some (Progress.Done inputs.now output) → ⊥) }
{
    match progress.as_slice().get(c) {
        Some(at) => match at {
            Progress::Done(kept, output) => {
                if same_outs::<W>(kept.as_slice(), inputs.as_slice()) {
                    Some(output)
                } else {
                    None
                }
            }
            _ => None,
        },
        None => None,
    }
}
