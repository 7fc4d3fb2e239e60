//! Whether each value of one type is one of another. Nothing here takes memory.
ghost use Rattle.std.specs.Prelude.{◌↔◌, ℕ, suc, Some, IsTrue};
ghost use Rattle.type_lattice_model.specs.HasType.{HasAt, HasParts, HasCell, HasRow, HasBody, HasTuple};
ghost use Rattle.type_lattice_model.specs.Laws.{BelowBy};
ghost use Rattle.type_lattice_model.specs.Shapes.{tags, sizes};
ghost use Rattle.type_lattice_trees.specs.View.{view, Fits, row_view, tags_view, body_view, sizes_view, tuples_view, cell_view};
ghost use Rattle.type_lattice_trees.specs.View.{parts_view, RowFits, TagsFit, BodyFits, SizesFit, TuplesFit, CellFits, PartsFit};

use crate::node::{
    BodyOf, CellOf, Node, PartsOf, SizeOf, TagOf, TuplesOf, find_size, find_tag_from, rest_after,
};
use type_kinds::Shared;

/// Whether each value of the first type is one of the second.
#[cycle(inclusion)]
pub fn leq(level: u32, a: &Node, b: &Node) -> bool
    requires a { Fits level a.now }
    requires b { Fits level b.now }
    ensures { IsTrue result ↔ BelowBy (HasAt level) (view level a.now) (view level b.now) }
{
    match b {
        Node::Any => true,
        Node::Of(others) => match a {
            Node::Any => false,
            Node::Of(parts) => leq_parts(level - 1, parts, others),
        },
    }
}

// The levels below are those of the elements.
#[cycle(inclusion)]
fn leq_parts(level: u32, a: &PartsOf<Node>, b: &PartsOf<Node>) -> bool
    requires a { PartsFit level a.now }
    requires b { PartsFit level b.now }
    ensures { IsTrue result ↔ BelowBy (HasParts (HasAt level)) (parts_view level a.now) (parts_view level b.now) }
{
    if !a.plain.leq(&b.plain) {
        return false;
    }
    if !leq_cell(level, &a.cell, &b.cell) {
        return false;
    }
    leq_tuples(level, &a.tuples, &b.tuples)
}

#[cycle(inclusion)]
fn leq_cell(level: u32, a: &Option<CellOf<Node>>, b: &Option<CellOf<Node>>) -> bool
    requires a { CellFits level a.now }
    requires b { CellFits level b.now }
    ensures { IsTrue result ↔ BelowBy (HasCell (HasAt level)) (cell_view level a.now) (cell_view level b.now) }
{
    match a {
        None => true,
        Some(one) => match b {
            None => false,
            Some(two) => {
                if two.is_proper && !one.is_proper {
                    return false;
                }
                leq(level, one.element.get(), two.element.get())
            }
        },
    }
}

// Whether each type of a product is below the one at its position. At level 0 each is every value.
#[cycle(inclusion)]
#[tactic(auto, using(type_kinds::proofs::Truths::granted, crate::proofs::Inclusions::row_below, crate::proofs::BottomRows::bottom_below))]
pub fn leq_row(level: u32, a: &[Shared<Node>], b: &[Shared<Node>]) -> bool
    requires { (n : ℕ) × (RowFits level n a.now × RowFits level n b.now) }
    ensures { IsTrue result ↔ BelowBy (HasRow (HasAt level)) (Some (row_view level a.now)) (Some (row_view level b.now)) }
{
    if level == 0 {
        return true;
    }
    for i in 0..a.len() {
        if !leq(level, a[i].get(), b[i].get()) {
            return false;
        }
    }
    true
}

// At level 0 both are as many times every value, and nothing is read.
#[cycle(inclusion)]
fn leq_body(level: u32, a: &BodyOf<Node>, b: &BodyOf<Node>) -> bool
    requires { (n : ℕ) × (BodyFits level n a.now × BodyFits level n b.now) }
    ensures { IsTrue result ↔ BelowBy (HasBody (HasAt level)) (Some (body_view level a.now)) (Some (body_view level b.now)) }
{
    if level == 0 {
        return true;
    }
    match a {
        BodyOf::Product(row) => match b {
            BodyOf::Product(other) => leq_row(level, row.as_slice(), other.as_slice()),
            BodyOf::Tags(_) => false,
        },
        BodyOf::Tags(tags) => match b {
            BodyOf::Product(_) => leq_tags(level, tags.as_slice(), b),
            BodyOf::Tags(others) => leq_both_tags(level, tags.as_slice(), others.as_slice()),
        },
    }
}

// Whether what follows each tag is below what follows its atom in the body.
#[cycle(inclusion)]
fn leq_tags(level: u32, a: &[TagOf<Node>], b: &BodyOf<Node>) -> bool
    requires { (n : ℕ) × (TagsFit level n a.now × BodyFits level (suc n) b.now) }
    ensures { IsTrue result ↔ BelowBy (HasBody (HasAt level)) (Some (tags (tags_view level a.now))) (Some (body_view level b.now)) }
{
    for tag in a {
        match rest_after(b, &tag.atom) {
            None => return false,
            Some(other) => {
                if !leq_row(level, tag.rest.as_slice(), other) {
                    return false;
                }
            }
        }
    }
    true
}

// The same of the tags of two bodies. Both ascend, so each tag is sought behind the one before it.
#[cycle(inclusion)]
fn leq_both_tags(level: u32, a: &[TagOf<Node>], b: &[TagOf<Node>]) -> bool
    requires { (n : ℕ) × (TagsFit level n a.now × TagsFit level n b.now) }
    ensures { IsTrue result ↔ BelowBy (HasBody (HasAt level)) (Some (tags (tags_view level a.now))) (Some (tags (tags_view level b.now))) }
{
    let mut from = 0;
    for tag in a {
        let Some(at) = find_tag_from(b, from, tag.atom.get()) else {
            return false;
        };
        if !leq_row(level, tag.rest.as_slice(), b[at].rest.as_slice()) {
            return false;
        }
        from = at + 1;
    }
    true
}

#[cycle(inclusion)]
fn leq_sizes(level: u32, a: &[SizeOf<Node>], b: &[SizeOf<Node>]) -> bool
    requires a { SizesFit level a.now }
    requires b { SizesFit level b.now }
    ensures { IsTrue result ↔ BelowBy (HasTuple (HasAt level)) (sizes (sizes_view level a.now)) (sizes (sizes_view level b.now)) }
{
    for size in a {
        match find_size(b, size.size) {
            None => return false,
            Some(other) => {
                if !leq_body(level, &size.body, other) {
                    return false;
                }
            }
        }
    }
    true
}

#[cycle(inclusion)]
fn leq_tuples(level: u32, a: &TuplesOf<Node>, b: &TuplesOf<Node>) -> bool
    requires a { TuplesFit level a.now }
    requires b { TuplesFit level b.now }
    ensures { IsTrue result ↔ BelowBy (HasTuple (HasAt level)) (tuples_view level a.now) (tuples_view level b.now) }
{
    match b {
        TuplesOf::All => true,
        TuplesOf::Sizes(others) => match a {
            TuplesOf::All => false,
            TuplesOf::Sizes(sizes) => leq_sizes(level, sizes.as_slice(), others.as_slice()),
        },
    }
}
