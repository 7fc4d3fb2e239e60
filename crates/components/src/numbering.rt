ghost use Rattle.std.specs.Prelude.{◌≡◌, ℕ, ◌+◌, ◌<◌, ◌^◌, length, Contains, slice_index, IfOk};
ghost use Rattle.components.specs.Graph.{IsGraph};
ghost use Rattle.components.specs.Lists.{Ascending};
ghost use Rattle.components.specs.Numbering.{component_of_node, members_of, callees_of, NumberingNodes, NumberingTogether, NumberingDownward};
ghost use Rattle.components.specs.Numbering.{NumberingUsed, NumberingReady, NumberingMembers, NumberingCallees, IsNumbering};
ghost use Rattle.components.specs.steps.Phases.{StrongComponents, ReadyComponents};
ghost use Rattle.components.specs.steps.State.{IsSound, Idle, AllClosed, ComponentsAre};

use crate::component_lists;
use crate::graph::Graph;
use crate::ordinals::first_ordinals;
use crate::ready::ready_order;
use crate::search::{NodeState, Search};
use std::alloc::Global;
use std::marker::Model;
use type_kinds::{List, Memory};

/// The strong components of a graph, with numbers from 0.
#[derive(Drop)]
pub struct Comps {
    component_of: List<u32>,
    count: u32,
    members: List<List<u32>>,
    callees: List<List<u32>>,
}

impl Model for Comps {
    ghost use Rattle.components.specs.Numbering.{Numbering, numbering_code, IsNumbering};

    ghost Value = { Numbering };

    ghost coded = { numbering_code };

    ghost view = { λ comps. record { component_of = comps.component_of; count = comps.count; members = comps.members; callees = comps.callees } };

    ghost invariant = { λ comps. IsNumbering (record {
      component_of = comps.component_of;
      count = comps.count;
      members = comps.members;
      callees = comps.callees;
    }) };
}

impl Comps {
    /// How many components there are.
    pub fn count(&self) -> u32
        ensures { result ≡ self.now.count }
    {
        self.count
    }

    /// The component of a node.
    pub fn home(&self, node: u32) -> u32
        requires { node < length self.now.component_of }
        ensures { result ≡ component_of_node self.now node }
    {
        *self.component_of.at(node as usize)
    }

    /// The members of a component, ascending.
    pub fn members(&self, component: u32) -> &List<u32>
        requires { component < self.now.count }
        ensures members { result.now ≡ members_of self.now component }
        ensures ascending { Ascending result.now }
    {
        self.members.at(component as usize)
    }

    /// The other components that the members of a component lead to, ascending. All are below it.
    pub fn callees(&self, component: u32) -> &List<u32>
        requires { component < self.now.count }
        ensures callees { result.now ≡ callees_of self.now component }
        ensures ascending { Ascending result.now }
        ensures below { (callee : ℕ) → Contains result.now callee → callee < component }
    {
        self.callees.at(component as usize)
    }
}

/// The strong components of a graph: two nodes are in one where they are equal or each reaches the
/// other. They are numbered from 0 in ready order: a component without a number is ready when every
/// other component that its members lead to has a number, and each next number goes to the ready
/// component whose least member is least. Fails only if allocation fails.
pub fn components(alloc: Global, graph: &Graph) -> Result<Comps, Memory>
    ensures nodes { IfOk result (λ comps. NumberingNodes graph.now comps) }
    ensures together { IfOk result (λ comps. NumberingTogether graph.now comps) }
    ensures downward { IfOk result (λ comps. NumberingDownward graph.now comps) }
    ensures used { IfOk result (λ comps. NumberingUsed graph.now comps) }
    ensures ready { IfOk result (λ comps. NumberingReady graph.now comps) }
    ensures members { IfOk result (λ comps. NumberingMembers graph.now comps) }
    ensures callees { IfOk result (λ comps. NumberingCallees graph.now comps) }
    ensures kept { IfOk result (λ comps. IsNumbering comps) }
{
    let _ = graph.count();
    let (found, found_count) = strong_components(alloc, graph)?;
    let (component_of, count) = ready_components(alloc, graph, found.as_slice(), found_count)?;
    let members = component_lists::members_of(alloc, component_of.as_slice(), count)?;
    let callees = component_lists::callees_of(
        alloc,
        graph,
        component_of.as_slice(),
        members.as_slice(),
    )?;
    Ok(Comps {
        component_of,
        count,
        members,
        callees,
    })
}

// The strong components in the order in which the search closes them.
fn strong_components(alloc: Global, graph: &Graph) -> Result<(List<u32>, u32), Memory>
    requires { IsGraph graph.now }
    ensures { IfOk result (λ found. StrongComponents graph.now found.0 found.1) }
{
    let search = run(alloc, graph)?;
    let component_of = closed_components(alloc, search.states.as_slice())?;
    Ok((component_of, search.count))
}

// The same components in ready order.
fn ready_components(
    alloc: Global,
    graph: &Graph,
    found: &[u32],
    found_count: u32,
) -> Result<(List<u32>, u32), Memory>
    requires graph { IsGraph graph.now }
    requires strong { StrongComponents graph.now found.now found_count }
    ensures { IfOk result (λ given. ReadyComponents graph.now given.0 given.1) }
{
    let (ordinals, ordinal_count) = first_ordinals(alloc, found, found_count)?;
    let members = component_lists::members_of(alloc, ordinals.as_slice(), ordinal_count)?;
    let callees = component_lists::callees_of(
        alloc,
        graph,
        ordinals.as_slice(),
        members.as_slice(),
    )?;
    let (numbers, count) = ready_order(alloc, callees.as_slice())?;
    let component_of = renumbered(alloc, ordinals.as_slice(), numbers.as_slice())?;
    Ok((component_of, count))
}

// The component of each node, which is the number of its ordinal.
fn renumbered(alloc: Global, ordinals: &[u32], numbers: &[u32]) -> Result<List<u32>, Memory>
    requires { (f : ℕ) → f < length ordinals.now → slice_index ordinals.now f < length numbers.now }
    ensures sizes { IfOk result (λ component_of. length component_of ≡ length ordinals.now) }
    ensures numbers { IfOk result (λ component_of. (f : ℕ) → f < length ordinals.now
        → slice_index component_of f ≡ slice_index numbers.now (slice_index ordinals.now f)) }
{
    let mut component_of = List::new(alloc);
    for ordinal in ordinals {
        component_of.add(numbers[*ordinal as usize])?;
    }
    Ok(component_of)
}

// The search, run to its end.
fn run(alloc: Global, graph: &Graph) -> Result<Search, Memory>
    requires { IsGraph graph.now }
    ensures { IfOk result (λ search. IsSound graph.now search × Idle graph.now search) }
{
    let mut search = Search::new(alloc, graph)?;
    while let Some(node) = search.next(graph) {
        search.open(graph, node)?;
    }
    Ok(search)
}

// The component of each node, where every node is closed.
fn closed_components(alloc: Global, states: &[NodeState]) -> Result<List<u32>, Memory>
    requires { AllClosed states.now }
    ensures { IfOk result (λ component_of. ComponentsAre states.now component_of) }
{
    let mut component_of = List::new(alloc);
    for state in states {
        let NodeState::Closed(number) = *state else {
            unreachable!();
        };
        component_of.add(number)?;
    }
    Ok(component_of)
}
