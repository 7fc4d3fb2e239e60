//! Types of one part, for every level.
ghost use Rattle.std.specs.Prelude.{◌≡◌, ◌≤◌, ℕ, suc, false, [], ◌∷◌, IfOk};
ghost use Rattle.type_lattice_model.specs.Normal.{NormalFunctions};
ghost use Rattle.type_lattice_model.specs.Operations.{ops, of_plain, of_list, of_tuples};
ghost use Rattle.type_lattice_model.specs.Shapes.{sizes, all_tuples};
ghost use Rattle.type_lattice_trees.specs.View.{view, body_view, Fits, BodyFits};

use crate::node::{BodyOf, CellOf, Node, PartsOf, SizeOf, TuplesOf};
use crate::plain::Plain;
use std::alloc::Global;
use type_kinds::{List, Memory, Shared};
use type_kinds_sets::SharedList;
use type_lattice_model::MAX_ELEMENTS;

/// These plain values and nothing else. Takes no memory.
#[tactic(auto, using(crate::proofs::MadeTrees::plain_fits, crate::proofs::MadeTrees::plain_value))]
pub fn plain_alone(plain: Plain) -> Node
    requires { NormalFunctions plain.functions }
    ensures fits { (d : ℕ) → Fits (suc d) result }
    ensures value { (d : ℕ) → view (suc d) result ≡ of_plain (ops d) plain }
{
    Node::Of(PartsOf {
        plain,
        cell: None,
        tuples: TuplesOf::Sizes(SharedList::empty()),
    })
}

/// Every tuple. Takes no memory.
#[tactic(auto, using(crate::proofs::MadeTrees::every_tuple_fits, crate::proofs::MadeTrees::every_tuple_value))]
pub fn every_tuple() -> Node
    ensures fits { (d : ℕ) → Fits (suc d) result }
    ensures value { (d : ℕ) → view (suc d) result ≡ of_tuples (ops d) all_tuples }
{
    Node::Of(PartsOf {
        plain: Plain::none(),
        cell: None,
        tuples: TuplesOf::All,
    })
}

/// The lists of an element type.
#[tactic(auto, using(crate::proofs::MadeTrees::list_fits, crate::proofs::MadeTrees::list_value))]
pub fn lists_of(alloc: Global, element: Node, is_proper: bool) -> Result<Node, Memory>
    ensures fits { IfOk result (λ t. (d : ℕ) → Fits d element → (ops d).is_none (view d element) ≡ false → Fits (suc d) t) }
    ensures value { IfOk result (λ t. (d : ℕ) → view (suc d) t ≡ of_list (ops d) (view d element) is_proper) }
{
    Ok(Node::Of(PartsOf {
        plain: Plain::none(),
        cell: Some(CellOf {
            element: Shared::new(alloc, element)?,
            is_proper,
        }),
        tuples: TuplesOf::Sizes(SharedList::empty()),
    }))
}

/// The tuples of one size.
#[tactic(auto, using(crate::proofs::MadeTrees::size_fits, crate::proofs::MadeTrees::size_value))]
pub fn tuples_of(alloc: Global, size: u8, body: BodyOf<Node>) -> Result<Node, Memory>
    ensures fits { IfOk result (λ t. (d : ℕ) → size ≤ MAX_ELEMENTS → BodyFits d size body → Fits (suc d) t) }
    ensures value { IfOk result (λ t. (d : ℕ) → view (suc d) t ≡ of_tuples (ops d) (sizes ((size, body_view d body) ∷ []))) }
{
    let mut sizes = List::new(alloc);
    sizes.add(SizeOf { size, body })?;
    Ok(Node::Of(PartsOf {
        plain: Plain::none(),
        cell: None,
        tuples: TuplesOf::Sizes(SharedList::new(alloc, sizes)?),
    }))
}
