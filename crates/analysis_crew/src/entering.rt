//! What is known of all functions, by the outputs of all components.
ghost use Rattle.std.specs.Prelude.{◌≡◌, ℕ, ◌<◌, Some, length, map, slice_get, IfOk, OnOk};
ghost use Rattle.components.specs.Numbering.{members_of};
ghost use Rattle.cons_tree.specs.Callees.{found};
ghost use Rattle.comp_rounds.specs.Members.{function_of};
ghost use Rattle.comp_rounds.specs.Rounds.{with_summaries};
ghost use Rattle.comp_rounds.specs.Takes.{AllTake};
ghost use Rattle.analysis_summaries.specs.Functions.{picked};
ghost use Rattle.analysis_summaries.specs.Known.{after_components};
ghost use Rattle.analysis_crew.specs.Parts.{AreSummariesOf};

use analysis_summaries::{discard_members, members_at};
use comp_rounds::{CompOut, Member, enter_summaries, rounds_laws};
use components::Comps;
use cons_tree::{Summaries, Summary};
use std::alloc::Global;
use type_kinds::{List, Memory, Shared};

// The functions of these numbers are known by their summaries.
fn enter_component(
    alloc: Global,
    members: &List<Member>,
    numbers: &[u32],
    summaries: &[Summary],
    known: &mut Summaries,
) -> Result<(), Memory>
    requires { AllTake (picked (map function_of members.now) numbers.now) summaries.now }
    ensures { OnOk result (found known.new ≡ with_summaries (found known.old) (picked (map function_of members.now) numbers.now) summaries.now) }
{
    let part = members_at(alloc, members, numbers)?;
    let done = enter_summaries(alloc, known, part.as_slice(), summaries);
    discard_members(part);
    done
}

/// The functions of all components are known by their outputs, one component after another. `Memory` if allocation
/// fails.
pub fn enter_all(
    alloc: Global,
    members: &List<Member>,
    comps: &Comps,
    outputs: &List<Shared<CompOut>>,
    known: &mut Summaries,
) -> Result<(), Memory>
    requires { AreSummariesOf (found known.old) (map function_of members.now) comps.now outputs.now }
    ensures { OnOk result (found known.new ≡ after_components (found known.old) (map function_of members.now) comps.now comps.now.count) }
{
    rounds_laws();
    for component in 0..comps.count() {
        let numbers = comps.members(component).as_slice();
        let output = outputs.at(component as usize).get();
        enter_component(alloc, members, numbers, output.summaries.as_slice(), known)?;
    }
    Ok(())
}
