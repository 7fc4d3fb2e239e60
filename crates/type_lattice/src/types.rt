ghost use Rattle.std.specs.Prelude.{◌≡◌, ◌↔◌, ◌≤◌, ◌-◌, [], Some, None, IsTrue, IfOk};
ghost use Rattle.type_lattice_model.specs.Normal.{NormalAt, NormalFunctions};
ghost use Rattle.type_lattice_model.specs.Parts.{value_at};
ghost use Rattle.type_lattice_model.specs.Shapes.{sizes};
ghost use Rattle.type_lattice_model.specs.Values.{Value, Values, count, tuple as tuple_value, cons as cons_value};
ghost use Rattle.type_lattice_model.proofs.NormalOnce.{normal_once};
ghost use Rattle.type_lattice.specs.declared.kinds.Ends.TheVariants.{Proper};
ghost use Rattle.type_lattice.specs.Types.{Type4, HasType, HasTypes, Below, IsOfLevel, none, any, is_none, meet, join};
ghost use Rattle.type_lattice.specs.Types.{cut, tuple, cons, project, elem, tail, of_atoms, of_ints, every_tuple};
ghost use Rattle.type_lattice.specs.Inclusion.{leq};
ghost use Rattle.type_lattice.specs.Kinds.{HasAtom, HasInt, IsKind, of_kind, asks_proper};
ghost use Rattle.type_lattice_trees.specs.View.{view, Fits};

use crate::kinds::{Ends, Kind, plain_kind};
use crate::makers::{any_none, element_with, is_list, product, tail_parts};
use std::alloc::Global;
use std::marker::Model;
use type_kinds::Memory;
use type_kinds_sets::{AtomSet, IntSet};
use type_lattice_model::MAX_ELEMENTS;
use type_lattice_trees::{
    Node, Plain, TuplesOf, copy, cut, element_of, every_tuple, find_size, is_none, join, leq,
    lists_of, made, meet, plain_alone,
};

/// A type: a set of values, in its one normal form of level 4. The type `none` has no value, and
/// `any` has all. Contracts see it as its model.
#[derive(Drop)]
pub struct Ty {
    kept: Kept,
}

#[derive(Drop)]
struct Kept {
    node: Node,
    ghost normal: { NormalAt 4 (view 4 node) } by { normal_once 4 (view 4 node) },
}

impl Model for Ty {
    ghost use Rattle.type_lattice.specs.Types.{Type4, type_code};
    ghost use Rattle.type_lattice_trees.specs.View.{view as type_of, Fits};

    ghost Value = { Type4 };

    ghost coded = { type_code };

    ghost view = { λ t. record { ty = type_of 4 t.kept.node; normal = t.kept.normal } };

    ghost invariant = { λ t. Fits 4 t.kept.node };
}

impl Ty {
    /// No value. Takes no memory.
    pub fn none() -> Ty
        ensures value { result ≡ none }
        ensures empty { (v : Value) → HasType v result → ⊥ }
    {
        Ty::of_plain(Plain::none())
    }

    /// Every value. Takes no memory.
    #[tactic(auto, using(type_lattice_trees::proofs::Views::any_fits))]
    pub fn any() -> Ty
        ensures value { result ≡ any }
        ensures every { (v : Value) → HasType v result }
    {
        Ty::of_node(Node::Any)
    }

    /// These atoms. Takes no memory.
    pub fn atoms(set: AtomSet) -> Ty
        ensures value { result ≡ of_atoms set }
        ensures only { (v : Value) → HasType v result ↔ HasAtom v set }
    {
        Ty::of_plain(Plain::of_atoms(set))
    }

    /// These integers. Takes no memory.
    pub fn ints(set: IntSet) -> Ty
        ensures value { result ≡ of_ints set }
        ensures only { (v : Value) → HasType v result ↔ HasInt v set }
    {
        Ty::of_plain(Plain {
            ints: set,
            ..Plain::none()
        })
    }

    /// The values of a kind. Takes no memory.
    pub fn kind(kind: Kind) -> Ty
        ensures value { result ≡ of_kind kind }
        ensures only { (v : Value) → HasType v result ↔ IsKind kind v }
    {
        if let Kind::AnyTuple = kind {
            return Ty::every_tuple();
        }
        Ty::of_plain(plain_kind(kind))
    }

    /// The least type of level 4 that has the tuples of elements of these types: none where one of
    /// them has no value, and every tuple where they are more than `MAX_ELEMENTS`.
    pub fn tuple(alloc: Global, parts: &[Ty]) -> Result<Ty, Memory>
        ensures value { IfOk result (λ t. t ≡ tuple parts.now) }
        ensures above { IfOk result (λ t. (vs : Values) → HasTypes vs parts.now → HasType (tuple_value vs) t) }
        ensures least { IfOk result (λ t. (u : Type4) → ((vs : Values) → HasTypes vs parts.now → HasType (tuple_value vs) u) → Below t u) }
    {
        if any_none(parts) {
            return Ok(Ty::none());
        }
        if parts.len() > MAX_ELEMENTS {
            return Ok(Ty::every_tuple());
        }
        let wide = product(alloc, parts)?;
        Ok(Ty::of_node(cut(alloc, 5, 4, &wide)?))
    }

    /// The lists of a head and a tail, and none where one of them has no value. With `Proper` it is
    /// the least type of level 4 that has them: its ends are proper exactly where each value of the
    /// tail is a proper list. With `Free` its ends are free.
    pub fn cons(alloc: Global, head: &Ty, tail: &Ty, ends: Ends) -> Result<Ty, Memory>
        ensures value { IfOk result (λ t. t ≡ cons head.now tail.now (asks_proper ends)) }
        ensures above { IfOk result (λ t. (x y : Value) → HasType x head.now → HasType y tail.now → HasType (cons_value x y) t) }
        ensures least { IfOk result (λ t. ends ≡ Proper → (u : Type4)
            → ((x y : Value) → HasType x head.now → HasType y tail.now → HasType (cons_value x y) u) → Below t u) }
    {
        if head.is_none() || tail.is_none() {
            return Ok(Ty::none());
        }
        let low = cut(alloc, 4, 3, &head.kept.node)?;
        let is_proper = ends == Ends::Proper && is_list(&tail.kept.node);
        let element = element_with(alloc, low, &tail.kept.node)?;
        Ok(Ty::of_node(lists_of(alloc, element, is_proper)?))
    }

    /// A second type of the same values, which shares what lies below its top with this one. `Memory`
    /// where a count of owners can rise no further.
    pub fn copy(&self) -> Result<Ty, Memory>
        ensures { IfOk result (λ t. t ≡ self.now) }
    {
        Ok(Ty::of_node(copy(&self.kept.node)?))
    }

    /// Whether the type has no value. Takes no memory.
    pub fn is_none(&self) -> bool
        ensures value { result ≡ is_none self.now }
        ensures empty { IsTrue result ↔ (self.now ≡ none) }
    {
        is_none(&self.kept.node)
    }

    /// Whether each value of this type is one of the other. Takes no memory.
    pub fn leq(&self, other: &Ty) -> bool
        ensures value { result ≡ leq self.now other.now }
        ensures below { IsTrue result ↔ Below self.now other.now }
    {
        leq(4, &self.kept.node, &other.kept.node)
    }

    /// The type whose values are those of both. Where one is part of the other it is shared.
    pub fn meet(&self, alloc: Global, other: &Ty) -> Result<Ty, Memory>
        ensures value { IfOk result (λ t. t ≡ meet self.now other.now) }
        ensures both { IfOk result (λ t. (v : Value) → HasType v t ↔ (HasType v self.now × HasType v other.now)) }
    {
        Ok(Ty::of_node(meet(alloc, 4, &self.kept.node, &other.kept.node)?))
    }

    /// The least type of level 4 that has the values of both. Where one is part of the other, the other
    /// is shared.
    pub fn join(&self, alloc: Global, other: &Ty) -> Result<Ty, Memory>
        ensures value { IfOk result (λ t. t ≡ join self.now other.now) }
        ensures left { IfOk result (λ t. Below self.now t) }
        ensures right { IfOk result (λ t. Below other.now t) }
        ensures least { IfOk result (λ t. (u : Type4) → Below self.now u → Below other.now u → Below t u) }
    {
        Ok(Ty::of_node(join(alloc, 4, &self.kept.node, &other.kept.node)?))
    }

    /// The least type of a level, of 4 at most, that has the values of this one.
    pub fn cut(&self, alloc: Global, level: u32) -> Result<Ty, Memory>
        requires { level ≤ 4 }
        ensures value { IfOk result (λ t. t ≡ cut level self.now) }
        ensures level { IfOk result (λ t. IsOfLevel level t) }
        ensures above { IfOk result (λ t. Below self.now t) }
        ensures least { IfOk result (λ t. (u : Type4) → IsOfLevel level u → Below self.now u → Below t u) }
    {
        if level == 0 && self.is_none() {
            return Ok(Ty::none());
        }
        Ok(Ty::of_node(cut(alloc, 4, level, &self.kept.node)?))
    }

    /// The type of one element of the tuples of a size, at a position from 1 to the size: the join of
    /// what stands there in the type's tuples of this size, any where the type has all tuples, or
    /// has tuples and the size is over `MAX_ELEMENTS`, and none where it has no such tuple.
    pub fn project(&self, alloc: Global, size: u32, position: u32) -> Result<Ty, Memory>
        requires { (1 ≤ position) × (position ≤ size) }
        ensures value { IfOk result (λ t. t ≡ project self.now size position) }
        ensures holds { IfOk result (λ t. (vs : Values) (v : Value) → HasType (tuple_value vs) self.now → count vs ≡ size
            → value_at vs (position - 1) ≡ Some v → HasType v t) }
    {
        let Node::Of(parts) = &self.kept.node else {
            return Ok(Ty::any());
        };
        let TuplesOf::Sizes(sizes) = &parts.tuples else {
            return Ok(Ty::any());
        };
        if size > MAX_ELEMENTS as u32 {
            if sizes.is_empty() {
                return Ok(Ty::none());
            }
            return Ok(Ty::any());
        }
        match find_size(sizes.as_slice(), size as u8) {
            None => Ok(Ty::none()),
            Some(body) => Ok(Ty::of_node(element_of(alloc, 3, body, position as usize - 1)?)),
        }
    }

    /// The type of the heads of a list, and none where the type has no list but nil.
    #[tactic(auto, using(crate::proofs::TypeModels::element_fits, crate::proofs::TypeModels::fits_up))]
    pub fn elem(&self, alloc: Global) -> Result<Ty, Memory>
        ensures value { IfOk result (λ t. t ≡ elem self.now) }
        ensures holds { IfOk result (λ t. (x y : Value) → HasType (cons_value x y) self.now → HasType x t) }
    {
        let Node::Of(parts) = &self.kept.node else {
            return Ok(Ty::any());
        };
        match &parts.cell {
            None => Ok(Ty::none()),
            Some(cell) => Ok(Ty::of_node(copy(cell.element.get())?)),
        }
    }

    /// The type of what follows the head of a list, and none where the type has no list but nil.
    pub fn tail(&self, alloc: Global) -> Result<Ty, Memory>
        ensures value { IfOk result (λ t. t ≡ tail self.now) }
        ensures holds { IfOk result (λ t. (x y : Value) → HasType (cons_value x y) self.now → HasType y t) }
    {
        let Node::Of(parts) = &self.kept.node else {
            return Ok(Ty::any());
        };
        match &parts.cell {
            None => Ok(Ty::none()),
            Some(cell) => {
                let after = tail_parts(cell)?;
                Ok(Ty::of_node(made(after)))
            }
        }
    }

    /// The tree of the type, for crates that write types.
    pub fn node(&self) -> &Node
        ensures fits { Fits 4 result.now }
        ensures value { view 4 result.now ≡ self.now.ty }
    {
        &self.kept.node
    }

    /// The type that a tree stands for, for crates that read types. Takes no memory.
    pub fn of_node(node: Node) -> Ty
        requires { Fits 4 node }
        ensures { result.ty ≡ view 4 node }
    {
        Ty {
            kept: Kept { node },
        }
    }

    // Every tuple. Takes no memory.
    fn every_tuple() -> Ty
        ensures { result ≡ every_tuple }
    {
        Ty::of_node(every_tuple())
    }

    // The type of these plain values and nothing else. Takes no memory.
    fn of_plain(plain: Plain) -> Ty
        requires { NormalFunctions plain.functions }
        ensures { result.ty ≡ record { plain = plain; cell = None; tuples = sizes [] } }
    {
        Ty::of_node(plain_alone(plain))
    }
}
