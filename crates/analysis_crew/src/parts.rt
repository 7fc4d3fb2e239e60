//! The parts of all components, and the work that they are.
ghost use Rattle.std.specs.Prelude.{◌≡◌, ◌<◌, ◌^◌, [], length, map, IfOk, OnOk};
ghost use Rattle.components.specs.Numbering.{callees_of as numbers_called, IsNumbering};
ghost use Rattle.cons_tree.specs.Callees.{found};
ghost use Rattle.comp_rounds.specs.Members.{function_of};
ghost use Rattle.comp_rounds.specs.Works.{parts_of, callees_of};
ghost use Rattle.summary_board.specs.Calls.{each_below};
ghost use Rattle.analysis_crew.specs.steps.Making.{IsMadeOf, AreMadeOf, IsWorkOf, lists_of};

use crate::fixed::fixed_for;
use crate::lists::{all_lists, lists_at};
use analysis_summaries::members_at;
use call_graph::OutsideCall;
use comp_rounds::{CompPart, CompWork, Listed, Member};
use components::Comps;
use cons_tree::Summaries;
use std::alloc::Global;
use type_kinds::{List, Memory, Shared};

// The part of a component.
fn part_at(
    alloc: Global,
    first: &Summaries,
    members: &List<Member>,
    outside: &List<List<OutsideCall>>,
    lists: &List<Shared<List<Listed>>>,
    comps: &Comps,
    component: u32,
) -> Result<CompPart, Memory>
    requires component { component < comps.now.count }
    requires lists { length lists.now ≡ comps.now.count }
    ensures { IfOk result (λ part. IsMadeOf (map function_of members.now) (found first.now) outside.now lists.now comps.now component part) }
{
    let numbers = comps.members(component).as_slice();
    let callees = lists_at(alloc, lists, comps.callees(component).as_slice())?;
    let own = members_at(alloc, members, numbers)?;
    let fixed = fixed_for(alloc, first, members, outside, numbers)?;
    Ok(CompPart {
        members: own,
        fixed,
        callees,
    })
}

// Adds the parts of all components to a list that is empty.
fn add_parts(
    alloc: Global,
    first: &Summaries,
    members: &List<Member>,
    outside: &List<List<OutsideCall>>,
    lists: &List<Shared<List<Listed>>>,
    comps: &Comps,
    parts: &mut List<CompPart>,
) -> Result<(), Memory>
    requires empty { parts.old ≡ [] }
    requires lists { length lists.now ≡ comps.now.count }
    ensures counted { OnOk result (length parts.new ≡ comps.now.count) }
    ensures made { OnOk result (AreMadeOf (map function_of members.now) (found first.now) outside.now lists.now comps.now parts.new) }
{
    for component in 0..comps.count() {
        let part = part_at(alloc, first, members, outside, lists, comps, component)?;
        parts.add(part)?;
    }
    Ok(())
}

// The parts of all components.
fn all_parts(
    alloc: Global,
    first: &Summaries,
    members: &List<Member>,
    outside: &List<List<OutsideCall>>,
    lists: &List<Shared<List<Listed>>>,
    comps: &Comps,
) -> Result<List<CompPart>, Memory>
    requires lists { length lists.now ≡ comps.now.count }
    ensures counted { IfOk result (λ parts. length parts ≡ comps.now.count) }
    ensures made { IfOk result (λ parts. AreMadeOf (map function_of members.now) (found first.now) outside.now lists.now comps.now parts) }
{
    let mut parts = List::new(alloc);
    match add_parts(alloc, first, members, outside, lists, comps, &mut parts) {
        Ok(()) => Ok(parts),
        Err(Memory) => {
            discard_parts(parts);
            Err(Memory)
        }
    }
}

fn discard_parts(_parts: List<CompPart>) {}

// For each component, those that it calls.
#[tactic(auto, using(summary_board::proofs::Below::each_below_more))]
fn all_callees(alloc: Global, comps: &Comps) -> Result<List<List<u32>>, Memory>
    ensures callees { IfOk result (λ callees. callees ≡ each_below comps.now.count (numbers_called comps.now)) }
    ensures few { IfOk result (λ _. comps.now.count < 2 ^ 32) }
{
    let mut callees: List<List<u32>> = List::new(alloc);
    for component in 0..comps.count() {
        callees.add(comps.callees(component).copy(alloc)?)?;
    }
    Ok(callees)
}

/// The components of functions as a work, where this is known at first and these are the functions' calls outside: the
/// part of each, and those that it calls. `Memory` if allocation fails, or where the count of a definition's owners can
/// rise no further.
pub fn work_of(
    alloc: Global,
    first: &Summaries,
    members: &List<Member>,
    outside: &List<List<OutsideCall>>,
    comps: &Comps,
) -> Result<CompWork, Memory>
    requires { IsNumbering comps.now }
    ensures { IfOk result (λ work. IsWorkOf (map function_of members.now) (found first.now) outside.now comps.now (parts_of work) (callees_of work)) }
{
    let lists = all_lists(alloc, members, comps)?;
    let callees = all_callees(alloc, comps)?;
    let parts = all_parts(alloc, first, members, outside, &lists, comps)?;
    CompWork::new(alloc, parts, callees)
}
