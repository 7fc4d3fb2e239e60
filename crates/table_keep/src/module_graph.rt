//! Which modules call which.
ghost use Rattle.std.specs.Prelude.{◌≡◌, ℕ, ◌<◌, ◌^◌, ◌↔◌, ◌⊎◌, length, slice_get, Some, IfOk, OnOk};
ghost use Rattle.indexmap.specs.IndexMap.{get, keys};
ghost use Rattle.components.specs.Graph.{Leads};
ghost use Rattle.core_scope.specs.Checked.{tree_of};
ghost use Rattle.core_scope.specs.Names.{same_atom};
ghost use Rattle.type_kinds.specs.declared.atom.Atom.{Atom as Name};
ghost use Rattle.table_keep.specs.Calls as calls;
ghost use Rattle.table_keep.specs.Kept.{calls_by, calls_of};
ghost use Rattle.table_keep.specs.Lists.{found_at, IsWithin};
ghost use Rattle.table_keep.specs.Model.{entries_so, sources_so};
ghost use Rattle.table_keep.specs.steps.Candidates.{entry_names, source_names, standing};
ghost use Rattle.table_keep.specs.steps.Named.{IsGraphOf, IsNamed, NameLeads};

use crate::calls::{called_functions, called_modules};
use crate::candidates::{Candidates, Positions};
use crate::source::Source;
use components::Graph;
use std::alloc::Global;
use table_file::Table;
use type_kinds::{Atom, Memory};

/// The graph of candidates, whose nodes are their places. One that is passed calls by its text, any other by its entry.
pub fn module_graph(
    alloc: Global,
    found: &Candidates,
    table: &Table,
    sources: &[Source],
) -> Result<Graph, Memory>
    requires few { length (keys found.now) < 2 ^ 32 }
    requires standing { (q : Name) → get same_atom found.now q ≡ standing (source_names sources.now) (entry_names table.now.entries) q }
    ensures { IfOk result (λ graph. IsGraphOf (keys found.now) (calls_of (entries_so table.now) (sources_so sources.now)) graph) }
{
    let count = found.len() as u32;
    let mut graph = Graph::new(alloc, count)?;
    for place in 0..count {
        add_calls_of(alloc, &mut graph, found, table, sources, place)?;
    }
    Ok(graph)
}

// Adds pairs from the candidate at a place.
fn add_calls_of(
    alloc: Global,
    graph: &mut Graph,
    found: &Candidates,
    table: &Table,
    sources: &[Source],
    place: u32,
) -> Result<(), Memory>
    requires size { length graph.old ≡ length (keys found.now) }
    requires place { place < length graph.old }
    requires standing { (q : Name) → get same_atom found.now q ≡ standing (source_names sources.now) (entry_names table.now.entries) q }
    ensures pairs { OnOk result ((i j : ℕ) → Leads graph.new i j
        ↔ (Leads graph.old i j ⊎ ((i ≡ place) × NameLeads (keys found.now) (calls_of (entries_so table.now) (sources_so sources.now)) place j))) }
    ensures size { OnOk result (length graph.new ≡ length graph.old) }
{
    match found.get_index(place as usize) {
        Some((_, positions)) => {
            add_calls_at(alloc, graph, found, table, sources, place, *positions)
        }
        None => unreachable!(),
    }
}

// Adds pairs from one that has these positions.
fn add_calls_at(
    alloc: Global,
    graph: &mut Graph,
    found: &Candidates,
    table: &Table,
    sources: &[Source],
    from: u32,
    positions: Positions,
) -> Result<(), Memory>
    requires size { length graph.old ≡ length (keys found.now) }
    requires from { from < length graph.old }
    requires source { IsWithin sources.now positions.source }
    requires entry { IsWithin table.now.entries positions.entry }
    ensures pairs { OnOk result ((i j : ℕ) → Leads graph.new i j
        ↔ (Leads graph.old i j ⊎ ((i ≡ from) × IsNamed (keys found.now)
        (calls_by (found_at (sources_so sources.now) positions.source) (found_at (entries_so table.now) positions.entry)) j))) }
    ensures size { OnOk result (length graph.new ≡ length graph.old) }
{
    if let Some(at) = positions.source {
        return add_calls_by(alloc, graph, found, from, &sources[at as usize]);
    }
    match positions.entry {
        Some(at) => {
            let entry = table.entries.at(at as usize);
            add_calls(graph, found, from, entry.calls.as_slice())
        }
        None => Ok(()),
    }
}

// Adds pairs from a module that is passed.
fn add_calls_by(
    alloc: Global,
    graph: &mut Graph,
    found: &Candidates,
    from: u32,
    source: &Source,
) -> Result<(), Memory>
    requires size { length graph.old ≡ length (keys found.now) }
    requires from { from < length graph.old }
    ensures pairs { OnOk result ((i j : ℕ) → Leads graph.new i j
        ↔ (Leads graph.old i j ⊎ ((i ≡ from) × IsNamed (keys found.now) (calls.called_modules (tree_of source.now.checked)) j))) }
    ensures size { OnOk result (length graph.new ≡ length graph.old) }
{
    let functions = called_functions(alloc, &source.checked)?;
    let names = called_modules(alloc, functions.as_slice())?;
    add_calls(graph, found, from, names.as_slice())
}

// Adds pairs from one module to those of these names that are candidates.
fn add_calls(graph: &mut Graph, found: &Candidates, from: u32, names: &[Atom]) -> Result<(), Memory>
    requires size { length graph.old ≡ length (keys found.now) }
    requires from { from < length graph.old }
    ensures pairs { OnOk result ((i j : ℕ) → Leads graph.new i j ↔ (Leads graph.old i j ⊎ ((i ≡ from) × IsNamed (keys found.now) names.now j))) }
    ensures size { OnOk result (length graph.new ≡ length graph.old) }
{
    for name in names {
        add_call(graph, found, from, name)?;
    }
    Ok(())
}

// Adds a pair from one module to that of a name, if it is a candidate.
fn add_call(graph: &mut Graph, found: &Candidates, from: u32, name: &Atom) -> Result<(), Memory>
    requires size { length graph.old ≡ length (keys found.now) }
    requires from { from < length graph.old }
    ensures pairs { OnOk result ((i j : ℕ) → Leads graph.new i j
        ↔ (Leads graph.old i j ⊎ ((i ≡ from) × (slice_get (keys found.now) j ≡ Some name.now)))) }
    ensures size { OnOk result (length graph.new ≡ length graph.old) }
{
    let _ = graph.count();
    match found.get_index_of(name) {
        Some(to) => graph.add(from, to as u32),
        None => Ok(()),
    }
}
