ghost use Rattle.std.specs.Prelude.{◌≡◌, ℕ, ◌<◌, ◌^◌, ◌↔◌, ◌⊎◌, length, Contains, slice_index, IfOk, OnOk};
ghost use Rattle.components.specs.steps.ComponentLists.{IsMembers, CalleesTo, ComponentAmong, CalledFrom};
ghost use Rattle.components.specs.Graph.{IsGraph};
ghost use Rattle.components.specs.Lists.{Ascending};

use crate::graph::Graph;
use crate::node_set::NodeSet;
use std::alloc::Global;
use type_kinds::{List, Memory};

/// The members of each component, ascending.
pub fn members_of(
    alloc: Global,
    component_of: &[u32],
    count: u32,
) -> Result<List<List<u32>>, Memory>
    requires short { length component_of.now < 2 ^ 32 }
    requires below { (f : ℕ) → f < length component_of.now → slice_index component_of.now f < count }
    ensures { IfOk result (λ lists. IsMembers component_of.now lists count) }
{
    let mut lists = List::empty_lists(alloc, count as usize)?;
    for (node, component) in component_of.iter().enumerate() {
        lists.add_at(*component as usize, node as u32)?;
    }
    Ok(lists)
}

/// The other components that each component leads to, ascending.
pub fn callees_of(
    alloc: Global,
    graph: &Graph,
    component_of: &[u32],
    members: &[List<u32>],
) -> Result<List<List<u32>>, Memory>
    requires graph { IsGraph graph.now }
    requires sizes { length component_of.now ≡ length graph.now }
    requires short { length members.now < 2 ^ 32 }
    requires members { IsMembers component_of.now members.now (length members.now) }
    ensures { IfOk result (λ lists. CalleesTo graph.now component_of.now lists (length members.now)) }
{
    let mut lists = List::new(alloc);
    for (own, nodes) in members.iter().enumerate() {
        let found = component_callees(alloc, graph, component_of, own as u32, nodes.as_slice())?;
        lists.add(found)?;
    }
    Ok(lists)
}

// The other components that some nodes lead to, ascending; `own` isn't among them.
fn component_callees(
    alloc: Global,
    graph: &Graph,
    component_of: &[u32],
    own: u32,
    nodes: &[u32],
) -> Result<List<u32>, Memory>
    requires graph { IsGraph graph.now }
    requires sizes { length component_of.now ≡ length graph.now }
    requires nodes { (k : ℕ) → k < length nodes.now → slice_index nodes.now k < length graph.now }
    ensures sorted { IfOk result (λ found. Ascending found) }
    ensures exact { IfOk result (λ found. (m : ℕ) → Contains found m ↔ CalledFrom graph.now component_of.now own nodes.now (length nodes.now) m) }
{
    let mut found = NodeSet::new(alloc);
    for node in nodes {
        add_components(&mut found, component_of, own, graph.targets(*node))?;
    }
    found.into_list(alloc)
}

// Adds the components of some nodes, except `own`.
fn add_components(
    found: &mut NodeSet,
    component_of: &[u32],
    own: u32,
    nodes: &[u32],
) -> Result<(), Memory>
    requires { (k : ℕ) → k < length nodes.now → slice_index nodes.now k < length component_of.now }
    ensures { OnOk result ((m : ℕ) → Contains found.new m
        ↔ (Contains found.old m ⊎ ComponentAmong component_of.now own nodes.now (length nodes.now) m)) }
{
    for node in nodes {
        add_component(found, component_of[*node as usize], own)?;
    }
    Ok(())
}

// Adds a component, except `own`.
fn add_component(found: &mut NodeSet, component: u32, own: u32) -> Result<(), Memory>
    ensures { OnOk result ((m : ℕ) → Contains found.new m ↔ (Contains found.old m ⊎ ((m ≡ own → ⊥) × (m ≡ component)))) }
{
    if component == own {
        return Ok(());
    }
    found.insert(component)
}
