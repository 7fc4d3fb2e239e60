//! Whether a type is low enough to be one of a lower level as it is. The tests take no memory.
ghost use Rattle.std.specs.Prelude.{IsTrue};
ghost use Rattle.type_lattice_trees.specs.View.{EachNode, EachTag, EachInCell};
ghost use Rattle.type_lattice_trees.specs.LowTrees.{IsLow, IsLowBody, AreLowSizes, AreLowTuples, AreLowParts};

use crate::node::{BodyOf, CellOf, Node, PartsOf, SizeOf, TagOf, TuplesOf, is_full};
use type_kinds::Shared;

/// Whether the type is low enough for level `to`. Where it isn't, its least type of that level may have more values.
#[cycle(low)]
pub fn is_low(to: u32, t: &Node) -> bool
    ensures { IsTrue result → IsLow to t.now }
{
    match t {
        Node::Any => true,
        Node::Of(parts) => {
            if to == 0 || is_full(parts) {
                return false;
            }
            are_parts_low(to - 1, parts)
        }
    }
}

// The elements of parts are of level `to`.
#[cycle(low)]
fn are_parts_low(to: u32, parts: &PartsOf<Node>) -> bool
    ensures { IsTrue result → AreLowParts to parts.now }
{
    is_cell_low(to, &parts.cell) && are_tuples_low(to, &parts.tuples)
}

#[cycle(low)]
fn is_cell_low(to: u32, cell: &Option<CellOf<Node>>) -> bool
    ensures { IsTrue result → EachInCell (IsLow to) cell.now }
{
    match cell {
        None => true,
        Some(c) => is_low(to, c.element.get()),
    }
}

#[cycle(low)]
fn are_tuples_low(to: u32, tuples: &TuplesOf<Node>) -> bool
    ensures { IsTrue result → AreLowTuples to tuples.now }
{
    match tuples {
        TuplesOf::All => true,
        TuplesOf::Sizes(sizes) => are_sizes_low(to, sizes.as_slice()),
    }
}

#[cycle(low)]
fn are_sizes_low(to: u32, sizes: &[SizeOf<Node>]) -> bool
    ensures { IsTrue result → AreLowSizes to sizes.now }
{
    for size in sizes {
        if !is_body_low(to, &size.body) {
            return false;
        }
    }
    true
}

// There are no tags at level 0.
#[cycle(low)]
fn is_body_low(to: u32, body: &BodyOf<Node>) -> bool
    ensures { IsTrue result → IsLowBody to body.now }
{
    match body {
        BodyOf::Product(row) => is_row_low(to, row.as_slice()),
        BodyOf::Tags(tags) => to > 0 && are_tags_low(to, tags.as_slice()),
    }
}

#[cycle(low)]
fn are_tags_low(to: u32, tags: &[TagOf<Node>]) -> bool
    ensures { IsTrue result → EachTag (IsLow to) tags.now }
{
    for tag in tags {
        if !is_row_low(to, tag.rest.as_slice()) {
            return false;
        }
    }
    true
}

#[cycle(low)]
fn is_row_low(to: u32, row: &[Shared<Node>]) -> bool
    ensures { IsTrue result → EachNode (IsLow to) row.now }
{
    for element in row {
        if !is_low(to, element.get()) {
            return false;
        }
    }
    true
}
