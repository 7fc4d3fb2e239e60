//! From the part of a component and the outputs of those that it calls to its own output.
ghost use Rattle.std.specs.Prelude.{◌≡◌, IfOk, OnOk, slice_get};
ghost use Rattle.cons_tree.specs.Callees.{Fits, found};
ghost use Rattle.comp_rounds.specs.Parts.{listed_callee, takes, with_inputs, with_listed, written};

use crate::parts::{CompOut, CompPart, Listed};
use crate::rounds::component_summaries;
use cons_tree::{Callee, Summaries, Summary};
use std::alloc::Global;
use type_kinds::{List, Memory, Shared};

// Whether both signatures of a summary have `arity` arguments.
fn takes(summary: &Summary, arity: u32) -> bool
    ensures { result ≡ takes summary.now arity }
{
    let count = arity as usize;
    summary.strict.get().args.len() == count && summary.lenient.get().args.len() == count
}

// What is known of a listed function with this summary.
fn standing(alloc: Global, listed: &Listed, summary: &Summary) -> Result<Callee, Memory>
    ensures { IfOk result (λ callee. callee ≡ listed_callee listed.now (Some summary.now)) }
{
    if !takes(summary, listed.1.arity) {
        return Ok(Callee::Unknown);
    }
    let summary = summary.copy(alloc)?;
    if listed.2 {
        Ok(Callee::Known(summary))
    } else {
        Ok(Callee::Local(summary))
    }
}

// What is known of a listed function whose summary stands at this position, if there is one.
fn listed_callee(
    alloc: Global,
    listed: &Listed,
    summaries: &[Summary],
    at: usize,
) -> Result<Callee, Memory>
    ensures value { IfOk result (λ callee. callee ≡ listed_callee listed.now (slice_get summaries.now at)) }
    ensures fits { IfOk result (λ callee. Fits callee listed.now.1.arity) }
{
    match summaries.get(at) {
        Some(summary) => Ok(standing(alloc, listed, summary)?),
        None => Ok(Callee::Unknown),
    }
}

// The functions of a list are known from now on, each by the summary at its position. If allocation fails `known` may hold
// anything.
fn enter_listed(
    alloc: Global,
    known: &mut Summaries,
    listed: &[Listed],
    summaries: &[Summary],
) -> Result<(), Memory>
    ensures { OnOk result (found known.new ≡ with_listed (found known.old) listed.now summaries.now) }
{
    for at in 0..listed.len() {
        let name = &listed[at];
        let callee = listed_callee(alloc, name, summaries, at)?;
        known.set(&name.0, &name.1, callee)?;
    }
    Ok(())
}

// The functions of all lists are known from now on, each list by the output at its position. If allocation fails `known`
// may hold anything.
fn enter_inputs(
    alloc: Global,
    known: &mut Summaries,
    callees: &[Shared<List<Listed>>],
    inputs: &[Shared<CompOut>],
) -> Result<(), Memory>
    ensures { OnOk result (found known.new ≡ with_inputs (found known.old) callees.now inputs.now) }
{
    for at in 0..callees.len() {
        let summaries = match inputs.get(at) {
            Some(input) => input.get().summaries.as_slice(),
            None => &[],
        };
        enter_listed(alloc, known, callees[at].get().as_slice(), summaries)?;
    }
    Ok(())
}

/// The output of a component, from its part and the outputs of the components that it calls, of which the one at each
/// position belongs to the list of callees at that position. What the members call is looked up among the members, then in the
/// lists from the last to the first, and then in what is fixed. Of a listed function nothing is known where its output or
/// its summary isn't there, or where the summary has another number of arguments. `Memory` if allocation fails.
pub fn solve_component(
    alloc: Global,
    part: &CompPart,
    inputs: &List<Shared<CompOut>>,
) -> Result<CompOut, Memory>
    ensures { IfOk result (λ out. out ≡ written part.now inputs.now) }
{
    let mut known = part.fixed.copy(alloc)?;
    enter_inputs(
        alloc,
        &mut known,
        part.callees.as_slice(),
        inputs.as_slice(),
    )?;
    let summaries = component_summaries(alloc, part.members.as_slice(), &mut known)?;
    Ok(CompOut { summaries })
}
