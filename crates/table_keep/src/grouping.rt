//! The groups of modules that call one another: of those that are passed and of those that have an entry.
ghost use Rattle.std.specs.Prelude.{◌≡◌, ℕ, ◌<◌, Some, Contains, length, map, slice_get, IfOk};
ghost use Rattle.indexmap.specs.IndexMap.{keys};
ghost use Rattle.components.specs.Numbering as numbering;
ghost use Rattle.core_scope.specs.Checked.{module_of};
ghost use Rattle.core_scope.specs.Sets.{StandsEarlier};
ghost use Rattle.table_keep.specs.Groups.{IsGroups, groups_in, group_at};
ghost use Rattle.table_keep.specs.Kept.{is_candidate, calls_of};
ghost use Rattle.table_keep.specs.Model.{entries_so, sources_so};
ghost use Rattle.table_keep.specs.Lists.{lists_of, member_names, IsGroupOf, IsListOf};
ghost use Rattle.table_keep.specs.steps.Members.{as_found, AreGroupsOf, AreMembers};

use crate::candidates::{Candidates, candidates};
use crate::group_list::{GroupList, GroupMember};
use crate::module_graph::module_graph;
use crate::source::Source;
use components::{Comps, components};
use std::alloc::Global;
use table_file::Table;
use type_kinds::{List, Memory};

impl GroupList {
    /// How many groups there are.
    pub fn count(&self) -> u32
        ensures { result ≡ length (lists_of self.now) }
    {
        self.groups.len() as u32
    }

    /// The members of a group, rising by name.
    pub fn members(&self, group: u32) -> &List<GroupMember>
        requires { group < length (lists_of self.now) }
        ensures names { member_names result.now ≡ group_at (lists_of self.now) group }
        ensures among { IsGroupOf self.now result.now }
    {
        self.groups.at(group as usize)
    }
}

/// The groups of the modules that are passed and of those that have an entry. One that is passed calls by its text, any other by
/// its entry. `Memory`: allocation failed, or there are 2^32 of them or more.
pub fn groups(alloc: Global, table: &Table, sources: &[Source]) -> Result<GroupList, Memory>
    requires distinct { (j : ℕ) → j < length sources.now → StandsEarlier (map (λ s. (module_of s.checked).name) sources.now) j → ⊥ }
    ensures groups { IfOk result (λ list. IsGroups (is_candidate (entries_so table.now) (sources_so sources.now))
        (calls_of (entries_so table.now) (sources_so sources.now)) (groups_in (lists_of list))) }
    ensures made_for { IfOk result (IsListOf table.now sources.now) }
{
    let found = candidates(alloc, table, sources)?;
    let graph = module_graph(alloc, &found, table, sources)?;
    let comps = components(alloc, &graph)?;
    group_list(alloc, &found, &comps)
}

// The groups of candidates whose places are in these components.
fn group_list(alloc: Global, found: &Candidates, comps: &Comps) -> Result<GroupList, Memory>
    requires { (n place : ℕ) → Contains (numbering.members_of comps.now n) place → place < length (keys found.now) }
    ensures { IfOk result (λ list. AreGroupsOf found.now.entries comps.now list.groups comps.now.count) }
{
    let mut groups = List::new(alloc);
    for component in 0..comps.count() {
        let members = members_at(alloc, found, comps.members(component).as_slice())?;
        groups.add(members)?;
    }
    Ok(GroupList { groups })
}

// The candidates at these places.
fn members_at(
    alloc: Global,
    found: &Candidates,
    places: &[u32],
) -> Result<List<GroupMember>, Memory>
    requires { (place : ℕ) → Contains places.now place → place < length (keys found.now) }
    ensures { IfOk result (AreMembers found.now.entries places.now) }
{
    let mut members = List::new(alloc);
    for place in places {
        let member = member_at(alloc, found, *place)?;
        members.add(member)?;
    }
    Ok(members)
}

// The candidate at a place.
fn member_at(alloc: Global, found: &Candidates, place: u32) -> Result<GroupMember, Memory>
    requires { place < length (keys found.now) }
    ensures { IfOk result (λ member. slice_get found.now.entries place ≡ Some (as_found member)) }
{
    match found.get_index(place as usize) {
        Some((name, positions)) => Ok(GroupMember {
            name: name.copy(alloc)?,
            source: positions.source,
            entry: positions.entry,
        }),
        None => unreachable!(),
    }
}
