//! What the calls on types are made of: products, lists, and what stands in them.
ghost use Rattle.std.specs.Prelude.{◌≡◌, ◌<◌, ◌≤◌, ℕ, false, [], Some, None, IfOk, cond, map, length};
ghost use Rattle.type_kinds_sets.specs.Names as names;
ghost use Rattle.type_kinds_sets.specs.Numbers as numbers;
ghost use Rattle.type_kinds_sets.specs.declared.bits.Bits.TheVariants.{No};
ghost use Rattle.type_lattice_model.specs.Operations.{ops, has_none, plain_none, plain_all};
ghost use Rattle.type_lattice_model.specs.Parts.{product_of, flags_of_nil, is_list as lists_alone, element_with as joined_element, tail_parts as after_head};
ghost use Rattle.type_lattice_model.specs.Shapes.{sizes, all_tuples, no_function};
ghost use Rattle.type_lattice_trees.specs.View.{view, Fits, cell_view, parts_view, tuples_view, CellFits, PartsFit, EachInTuples};

use crate::kinds::{Kind, plain_kind};
use crate::types::Ty;
use std::alloc::Global;
use type_kinds::{List, Memory, Shared};
use type_kinds_sets::SharedList;
use type_lattice_model::MAX_ELEMENTS;
use type_lattice_trees::{
    CellOf, Node, PartsOf, Plain, TuplesOf, copy, discard, join, product_body, tuples_of,
};

/// Whether one of the types has no value.
pub fn any_none(types: &[Ty]) -> bool
    ensures { result ≡ has_none (ops 4) (map (λ t. t.ty) types.now) }
{
    for t in types {
        if t.is_none() {
            return true;
        }
    }
    false
}

/// The tuples of at most `MAX_ELEMENTS` elements of these types, one level up.
pub fn product(alloc: Global, types: &[Ty]) -> Result<Node, Memory>
    requires few { length types.now ≤ MAX_ELEMENTS }
    requires filled { has_none (ops 4) (map (λ t. t.ty) types.now) ≡ false }
    ensures fits { IfOk result (λ n. Fits 5 n) }
    ensures value { IfOk result (λ n. view 5 n ≡ product_of (ops 4) (map (λ t. t.ty) types.now)) }
{
    let every = Shared::new(alloc, Node::Any)?;
    let mut row = List::new(alloc);
    for t in types {
        row.add(shared_tree(alloc, t, &every)?)?;
    }
    let body = product_body(alloc, 4, SharedList::new(alloc, row)?)?;
    tuples_of(alloc, types.len() as u8, body)
}

// The tree of a type; where it is every value, the one that is there.
fn shared_tree(alloc: Global, t: &Ty, every: &Shared<Node>) -> Result<Shared<Node>, Memory>
    requires { every.now ≡ Node.Any }
    ensures fits { IfOk result (λ n. Fits 4 n) }
    ensures value { IfOk result (λ n. view 4 n ≡ t.now.ty) }
{
    if let Node::Any = t.node() {
        return every.share();
    }
    Shared::new(alloc, copy(t.node())?)
}

/// Whether each value of the type is a proper list.
pub fn is_list(t: &Node) -> bool
    requires { Fits 4 t.now }
    ensures { result ≡ lists_alone (ops 3) (view 4 t.now) }
{
    let Node::Of(parts) = t else {
        return false;
    };
    let TuplesOf::Sizes(sizes) = &parts.tuples else {
        return false;
    };
    if !sizes.is_empty() {
        return false;
    }
    if let Some(cell) = &parts.cell {
        if !cell.is_proper {
            return false;
        }
    }
    parts.plain.is_nil_at_most()
}

/// The element type of a list with a head of this type, of level 3, and a tail.
pub fn element_with(alloc: Global, head: Node, tail: &Node) -> Result<Node, Memory>
    requires head { Fits 3 head }
    requires tail { Fits 4 tail.now }
    ensures fits { IfOk result (λ n. Fits 3 n) }
    ensures value { IfOk result (λ n. view 3 n ≡ joined_element (ops 3) (view 3 head) (view 4 tail.now).cell) }
{
    let Node::Of(parts) = tail else {
        discard(head);
        return Ok(Node::Any);
    };
    match &parts.cell {
        None => Ok(head),
        Some(cell) => join(alloc, 3, &head, cell.element.get()),
    }
}

/// What may follow the head of a list.
pub fn tail_parts(cell: &CellOf<Node>) -> Result<PartsOf<Node>, Memory>
    requires { CellFits 3 (Some cell.now) }
    ensures fits { IfOk result (λ p. PartsFit 3 p) }
    ensures value { IfOk result (λ p. parts_view 3 p ≡ after_head (ops 3) (cell_view 3 (Some cell.now))) }
{
    let is_proper = cell.is_proper;
    Ok(PartsOf {
        plain: tail_plain(is_proper),
        cell: Some(CellOf {
            element: cell.element.share()?,
            is_proper,
        }),
        tuples: tail_tuples(is_proper),
    })
}

// The plain values at the end of a list.
fn tail_plain(is_proper: bool) -> Plain
    ensures { result ≡ cond is_proper (record { atoms = names.none; ints = numbers.none; bits = No; flags = flags_of_nil; functions = no_function })
        plain_all }
{
    if is_proper {
        plain_kind(Kind::Nil)
    } else {
        Plain::all()
    }
}

// The tuples at the end of a list.
fn tail_tuples(is_proper: bool) -> TuplesOf<Node>
    ensures value { (d : ℕ) → tuples_view d result ≡ cond is_proper (sizes []) all_tuples }
    ensures each { (d : ℕ) → EachInTuples (Fits d) result }
{
    if is_proper {
        TuplesOf::Sizes(SharedList::empty())
    } else {
        TuplesOf::All
    }
}
