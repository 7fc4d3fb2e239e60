//! What is known of the functions of modules: one component after another is solved.
ghost use Rattle.std.specs.Prelude.{◌≡◌, ℕ, ◌<◌, length, map, OnOk};
ghost use Rattle.core_scope.specs.Checked.{module_of};
ghost use Rattle.cons_tree.specs.Callees.{found};
ghost use Rattle.comp_rounds.specs.Members.{function_of};
ghost use Rattle.analysis_summaries.specs.Functions.{picked};
ghost use Rattle.analysis_summaries.specs.Known.{after_components, closed_over, with_component};

use crate::functions::{discard_members, members_at};
use comp_rounds::{Member, component_summaries};
use components::Comps;
use cons_tree::{Summaries, Summary};
use core_scope::AsChecked;
use std::alloc::Global;
use type_kinds::{List, Memory};

/// Closes modules: each name of one of them is undefined, and of others it stays known what was. `Memory` if allocation
/// fails; then some may be closed.
pub fn close_modules<S: AsChecked>(mods: &[S], known: &mut Summaries) -> Result<(), Memory>
    ensures { OnOk result (found known.new ≡ closed_over (found known.old) (map (λ s. (module_of (S.stands_for s)).name) mods.now)) }
{
    for source in mods {
        known.close(&source.checked().module().name)?;
    }
    Ok(())
}

/// Solves one component after another, each with what is known by then. `Memory` if allocation fails.
pub fn solve_all(
    alloc: Global,
    members: &List<Member>,
    comps: &Comps,
    known: &mut Summaries,
) -> Result<(), Memory>
    ensures { OnOk result (found known.new ≡ after_components (found known.old) (map function_of members.now) comps.now comps.now.count) }
{
    for component in 0..comps.count() {
        let numbers = comps.members(component);
        solve_component(alloc, members, numbers.as_slice(), known)?;
    }
    Ok(())
}

// Solves the component of the functions of these numbers.
fn solve_component(
    alloc: Global,
    members: &List<Member>,
    numbers: &[u32],
    known: &mut Summaries,
) -> Result<(), Memory>
    ensures { OnOk result (found known.new ≡ with_component (found known.old) (picked (map function_of members.now) numbers.now)) }
{
    let part = members_at(alloc, members, numbers)?;
    let solved = component_summaries(alloc, part.as_slice(), known);
    discard_members(part);
    match solved {
        Ok(summaries) => {
            discard_summaries(summaries);
            Ok(())
        }
        Err(Memory) => Err(Memory),
    }
}

fn discard_summaries(_summaries: List<Summary>) {}
