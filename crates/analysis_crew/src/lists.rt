//! The functions of each component as those that call it see them.
ghost use Rattle.std.specs.Prelude.{◌≡◌, ◌<◌, ◌++◌, [], All, length, map, slice_get, slice_index_or, IfOk, OnOk};
ghost use Rattle.comp_rounds.specs.Members.{function_of};
ghost use Rattle.analysis_summaries.specs.Functions.{perhaps, picked};
ghost use Rattle.analysis_crew.specs.Parts.{listed};
ghost use Rattle.analysis_crew.specs.steps.Making.{lists_of};

use comp_rounds::{Listed, Member};
use components::Comps;
use std::alloc::Global;
use type_kinds::{List, Memory, Shared};

// A function as others see it.
fn listed(alloc: Global, member: &Member) -> Result<Listed, Memory>
    ensures { IfOk result (λ it. it ≡ listed (function_of member.now)) }
{
    let home = member.home.copy(alloc)?;
    let name = member.def.get().name.copy(alloc)?;
    Ok((home, name, member.exported))
}

// Adds the function of a number, if there is one.
fn add_listed(
    alloc: Global,
    members: &List<Member>,
    number: u32,
    list: &mut List<Listed>,
) -> Result<(), Memory>
    ensures { OnOk result (list.new ≡ list.old ++ map listed (perhaps (slice_get (map function_of members.now) number))) }
{
    match members.get(number as usize) {
        Some(member) => {
            let it = listed(alloc, member)?;
            list.add(it)
        }
        None => Ok(()),
    }
}

// The functions of these numbers.
#[tactic(auto, using(crate::proofs::Loops::listed_next))]
fn list_of(alloc: Global, members: &List<Member>, numbers: &[u32]) -> Result<List<Listed>, Memory>
    ensures { IfOk result (λ list. list ≡ map listed (picked (map function_of members.now) numbers.now)) }
{
    let mut list = List::new(alloc);
    for number in numbers {
        add_listed(alloc, members, *number, &mut list)?;
    }
    Ok(list)
}

/// The functions of each component. `Memory` if allocation fails.
#[tactic(auto, using(summary_board::proofs::Below::each_below_more))]
pub fn all_lists(
    alloc: Global,
    members: &List<Member>,
    comps: &Comps,
) -> Result<List<Shared<List<Listed>>>, Memory>
    ensures { IfOk result (λ lists. lists ≡ lists_of (map function_of members.now) comps.now) }
{
    let mut lists: List<Shared<List<Listed>>> = List::new(alloc);
    for component in 0..comps.count() {
        let list = list_of(alloc, members, comps.members(component).as_slice())?;
        lists.add(Shared::new(alloc, list)?)?;
    }
    Ok(lists)
}

/// The lists of these components. `Memory` where the count of a list's owners can rise no further, and if allocation
/// fails.
pub fn lists_at(
    alloc: Global,
    lists: &List<Shared<List<Listed>>>,
    components: &[u32],
) -> Result<List<Shared<List<Listed>>>, Memory>
    requires { All (λ n. n < length lists.now) components.now }
    ensures { IfOk result (λ found. found ≡ map (λ n. slice_index_or lists.now n []) components.now) }
{
    let mut found: List<Shared<List<Listed>>> = List::new(alloc);
    for component in components {
        found.add(lists.at(*component as usize).share()?)?;
    }
    Ok(found)
}
