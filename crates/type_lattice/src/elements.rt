//! The integers of a type, and the elements of its tuples at the positions in a set.
ghost use Rattle.std.specs.Prelude.{◌≡◌, ◌↔◌, ℕ, ℤ, pos, suc, Some, IsTrue, IfOk};
ghost use Rattle.type_kinds_sets.specs.Numbers.{has};
ghost use Rattle.type_lattice_model.specs.Cut.{cut};
ghost use Rattle.type_lattice_model.specs.Elements.{at_positions, sizes_at, with_elements};
ghost use Rattle.type_lattice_model.specs.Operations.{ops, elements};
ghost use Rattle.type_lattice_model.specs.Parts.{value_at};
ghost use Rattle.type_lattice_model.specs.Values.{Value, Values, int, tuple as tuple_value};
ghost use Rattle.type_lattice.specs.Types.{HasType};
ghost use Rattle.type_lattice.specs.Elements.{ints_of, elements_at};
ghost use Rattle.type_lattice_trees.specs.View.{view, Fits, row_view, body_view, sizes_view, EachNode, BodyFits, SizesFit};

use crate::types::Ty;
use std::alloc::Global;
use type_kinds::{Memory, Shared};
use type_kinds_sets::{High, IntSet, Low};
use type_lattice_trees::{BodyOf, Node, Plain, SizeOf, TuplesOf, elements_of, join, plain_alone};

impl Ty {
    /// The integers of the type. Takes no memory.
    pub fn integers(&self) -> IntSet
        ensures value { result ≡ ints_of self.now }
        ensures only { (n : ℤ) → HasType (int n) self.now ↔ IsTrue (has result n) }
    {
        match self.node() {
            Node::Any => IntSet::range(Low::Min, High::Max),
            Node::Of(parts) => parts.plain.ints.copy(),
        }
    }

    /// The join of the elements at these positions of the type's tuples, over all sizes. The first element
    /// is at position 1, and positions outside a size don't count. It is any where the type has all tuples.
    pub fn elements_at(&self, alloc: Global, positions: &IntSet) -> Result<Ty, Memory>
        ensures value { IfOk result (λ t. t ≡ elements_at self.now positions.now) }
        ensures holds { IfOk result (λ t. (vs : Values) (i : ℕ) (v : Value) → HasType (tuple_value vs) self.now → value_at vs i ≡ Some v
            → IsTrue (has positions.now (pos (suc i))) → HasType v t) }
    {
        let Node::Of(parts) = self.node() else {
            return Ok(Ty::any());
        };
        let TuplesOf::Sizes(sizes) = &parts.tuples else {
            return Ok(Ty::any());
        };
        Ok(Ty::of_node(with_sizes(alloc, sizes.as_slice(), positions)?))
    }
}

// The join of the elements at these positions, over all sizes.
fn with_sizes(alloc: Global, sizes: &[SizeOf<Node>], positions: &IntSet) -> Result<Node, Memory>
    requires { SizesFit 3 sizes.now }
    ensures fits { IfOk result (λ n. Fits 4 n) }
    ensures value { IfOk result (λ n. view 4 n ≡ with_elements 3 (ops 4).none (sizes_at (ops 3) positions.now (sizes_view 3 sizes.now))) }
{
    let mut t = plain_alone(Plain::none());
    for size in sizes {
        t = with_body(alloc, t, &size.body, positions)?;
    }
    Ok(t)
}

// The join of a type and of a body's elements at these positions.
fn with_body(
    alloc: Global,
    t: Node,
    body: &BodyOf<Node>,
    positions: &IntSet,
) -> Result<Node, Memory>
    requires t { Fits 4 t }
    requires body { (n : ℕ) × BodyFits 3 n body.now }
    ensures fits { IfOk result (λ n. Fits 4 n) }
    ensures value { IfOk result (λ n. view 4 n ≡ with_elements 3 (view 4 t) (at_positions positions.now 1 (elements (ops 3) (body_view 3 body.now)))) }
{
    let row = elements_of(alloc, 3, body)?;
    with_row(alloc, t, row.as_slice(), positions)
}

// The join of a type and of a row's elements at these positions.
fn with_row(
    alloc: Global,
    t: Node,
    row: &[Shared<Node>],
    positions: &IntSet,
) -> Result<Node, Memory>
    requires t { Fits 4 t }
    requires row { EachNode (Fits 3) row.now }
    ensures fits { IfOk result (λ n. Fits 4 n) }
    ensures value { IfOk result (λ n. view 4 n ≡ with_elements 3 (view 4 t) (at_positions positions.now 1 (row_view 3 row.now))) }
{
    let mut joined = t;
    for at in 0..row.len() {
        if positions.contains((at + 1) as i128) {
            joined = with_element(alloc, joined, row[at].get())?;
        }
    }
    Ok(joined)
}

// The join of a type and of an element, whose level is one lower.
fn with_element(alloc: Global, t: Node, element: &Node) -> Result<Node, Memory>
    requires t { Fits 4 t }
    requires element { Fits 3 element.now }
    ensures fits { IfOk result (λ n. Fits 4 n) }
    ensures value { IfOk result (λ n. view 4 n ≡ (ops 4).join (view 4 t) (cut 3 4 (view 3 element.now))) }
{
    join(alloc, 4, &t, element)
}
