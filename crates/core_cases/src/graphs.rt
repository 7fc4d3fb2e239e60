//! Graphs, and their components.
ghost use Rattle.std.specs.Prelude.{◌≤◌, length};

use crate::play::number;
use components::{Comps, Graph, components};
use std::alloc::Global;
use type_kinds::{Bytes, Memory};

/// Appends the components of so many nodes with these pairs.
pub fn append_graph(alloc: Global, count: u32, pairs: &str, out: &mut Bytes) -> Result<(), Memory> {
    let mut graph = Graph::new(alloc, count)?;
    let answer = match add_pairs(&mut graph, pairs) {
        Ok(()) => append_components(alloc, &graph, out),
        Err(Memory) => Err(Memory),
    };
    drop(graph);
    answer
}

fn add_pairs(graph: &mut Graph, pairs: &str) -> Result<(), Memory> {
    for line in pairs.lines() {
        if let Some((from, to)) = line.split_once(' ') {
            add_pair(graph, number(from), number(to))?;
        }
    }
    Ok(())
}

// Adds a pair, if it is of the graph's nodes.
fn add_pair(graph: &mut Graph, from: u32, to: u32) -> Result<(), Memory> {
    if from < graph.count() && to < graph.count() {
        graph.add(from, to)?;
    }
    Ok(())
}

/// Appends the component of each node, and a line for each component: its members, and the components that these lead to.
pub fn append_components(alloc: Global, graph: &Graph, out: &mut Bytes) -> Result<(), Memory> {
    let comps = components(alloc, graph)?;
    let answer = append_numbering(&comps, graph.count(), out);
    drop(comps);
    answer
}

fn append_numbering(comps: &Comps, count: u32, out: &mut Bytes) -> Result<(), Memory>
    requires { count ≤ length comps.now.component_of }
{
    append_homes(comps, count, out)?;
    for component in 0..comps.count() {
        out.append_decimal(component)?;
        out.append(b":")?;
        append_numbers(comps.members(component).as_slice(), out)?;
        out.append(b" ->")?;
        append_numbers(comps.callees(component).as_slice(), out)?;
        out.append(b"\n")?;
    }
    Ok(())
}

// The component of each node.
fn append_homes(comps: &Comps, count: u32, out: &mut Bytes) -> Result<(), Memory>
    requires { count ≤ length comps.now.component_of }
{
    out.append(b"components")?;
    for node in 0..count {
        out.append(b" ")?;
        out.append_decimal(comps.home(node))?;
    }
    out.append(b"\n")
}

fn append_numbers(numbers: &[u32], out: &mut Bytes) -> Result<(), Memory> {
    for number in numbers {
        out.append(b" ")?;
        out.append_decimal(*number)?;
    }
    Ok(())
}

/// Appends how many components a chain of so many nodes has, each of which leads to the next; where it is closed, the last leads to the
/// first.
pub fn append_count(
    alloc: Global,
    count: u32,
    closed: bool,
    out: &mut Bytes,
) -> Result<(), Memory> {
    out.append_decimal(count_of_ring(alloc, count, closed)?)?;
    out.append(b" components\n")
}

fn add_ring(graph: &mut Graph, count: u32, closed: bool) -> Result<(), Memory> {
    for node in 1..count {
        add_pair(graph, node - 1, node)?;
    }
    if closed && 0 < count {
        add_pair(graph, count - 1, 0)?;
    }
    Ok(())
}

fn count_of_ring(alloc: Global, count: u32, closed: bool) -> Result<u32, Memory> {
    let mut graph = Graph::new(alloc, count)?;
    let comps = match add_ring(&mut graph, count, closed) {
        Ok(()) => components(alloc, &graph),
        Err(Memory) => Err(Memory),
    };
    drop(graph);
    let comps = comps?;
    let count = comps.count();
    drop(comps);
    Ok(count)
}
