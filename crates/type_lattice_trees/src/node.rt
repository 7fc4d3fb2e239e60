ghost use Rattle.std.specs.Prelude.{◌≡◌, ◌<◌, ℕ, suc, [], ◌∷◌, ◌++◌, length, drop, slice_get};
ghost use Rattle.std.specs.Prelude.{Some, None, IfOk, IfSome, IfNone, IsTrue, option_map, ◌↔◌};
ghost use Rattle.std.specs.Option.{option_copied};
ghost use Rattle.std.specs.Ordering.{nat_cmp};
ghost use Rattle.type_lattice_model.specs.Operations.{ops, parts_is_none, parts_any, row_at, is_only_atoms as only_atoms_there};
ghost use Rattle.type_lattice_model.specs.Tables.{find};
ghost use Rattle.type_lattice_model.specs.Shapes.{product};
ghost use Rattle.type_kinds_sets.specs.Names.{name_cmp};
ghost use Rattle.type_lattice_trees.specs.View.{view, row_view, tags_view, body_view, sizes_view, parts_view};
ghost use Rattle.type_lattice_trees.specs.View.{Fits, EachNode, EachTag, EachSize, EachInBody, PartsFit};

use crate::plain::Plain;
use type_kinds::{Atom, Memory, Shared};
use type_kinds_sets::SharedList;

/// A type, or the type of an element: every value, or what its parts have. It is no deeper than its
/// level, and what recursion goes by is the level. What lies below its top is shared.
#[derive(Drop)]
pub enum Node {
    Any,
    Of(PartsOf<Node>),
}

#[derive(Drop)]
pub struct PartsOf<E> {
    pub plain: Plain,
    pub cell: Option<CellOf<E>>,
    pub tuples: TuplesOf<E>,
}

/// Lists that aren't empty.
#[derive(Drop)]
pub struct CellOf<E> {
    pub element: Shared<E>,
    pub is_proper: bool,
}

#[derive(Drop)]
pub enum TuplesOf<E> {
    All,
    /// Sizes in ascending order.
    Sizes(SharedList<SizeOf<E>>),
}

#[derive(Drop)]
pub struct SizeOf<E> {
    pub size: u8,
    pub body: BodyOf<E>,
}

/// The tuples of one size.
#[derive(Drop)]
pub enum BodyOf<E> {
    Product(SharedList<Shared<E>>),
    /// Tags in ascending order.
    Tags(SharedList<TagOf<E>>),
}

#[derive(Drop)]
pub struct TagOf<E> {
    pub atom: Shared<Atom>,
    pub rest: SharedList<Shared<E>>,
}

pub fn discard(_t: Node) {}

/// Whether the type has no value.
#[tactic(auto, using(crate::proofs::Views::any_has))]
pub fn is_none(t: &Node) -> bool
    ensures { (d : ℕ) → Fits d t.now → result ≡ (ops d).is_none (view d t.now) }
{
    match t {
        Node::Any => false,
        Node::Of(parts) => has_no_part(parts),
    }
}

// Whether no part has a value.
fn has_no_part(parts: &PartsOf<Node>) -> bool
    ensures { (d : ℕ) → result ≡ parts_is_none (ops d) (parts_view d parts.now) }
{
    parts.plain.atoms.is_none() && is_only_atoms(parts)
}

/// Whether the type has the atom.
#[tactic(auto, using(crate::proofs::Nodes::any_has_atom, crate::proofs::Nodes::of_has_atom))]
pub fn has_atom(t: &Node, atom: &Shared<Atom>) -> bool
    ensures { (d : ℕ) → Fits d t.now → result ≡ (ops d).has_atom (view d t.now) atom.now }
{
    match t {
        Node::Any => true,
        Node::Of(parts) => parts.plain.atoms.contains(atom.get()),
    }
}

/// The atoms of a type that has at most thirteen of them and nothing else.
#[tactic(auto, using(crate::proofs::Nodes::any_only, crate::proofs::Nodes::of_not_only))]
pub fn only_atoms(t: &Node) -> Option<&[Shared<Atom>]>
    ensures { (d : ℕ) → Fits d t.now → option_copied result ≡ (ops d).only (view d t.now) }
{
    match t {
        Node::Any => None,
        Node::Of(parts) => {
            if is_only_atoms(parts) {
                parts.plain.atoms.members()
            } else {
                None
            }
        }
    }
}

// Whether no part has a value, but atoms.
fn is_only_atoms(parts: &PartsOf<Node>) -> bool
    ensures { (d : ℕ) → result ≡ only_atoms_there (ops d) (parts_view d parts.now) }
{
    if !parts.plain.is_atoms() {
        return false;
    }
    if parts.cell.is_some() {
        return false;
    }
    match &parts.tuples {
        TuplesOf::All => false,
        TuplesOf::Sizes(sizes) => sizes.is_empty(),
    }
}

/// The tuples of a size.
pub fn find_size(sizes: &[SizeOf<Node>], size: u8) -> Option<&BodyOf<Node>>
    ensures value { (d : ℕ) → option_map (body_view d) (option_copied result) ≡ find nat_cmp (sizes_view d sizes.now) size }
    ensures each { (d : ℕ) → EachSize (Fits d) sizes.now → IfSome result (λ b. EachInBody (Fits d) b.now) }
{
    for other in sizes {
        if other.size == size {
            return Some(&other.body);
        }
    }
    None
}

/// The types of what follows a first element that is this atom.
pub fn rest_after<'a>(body: &'a BodyOf<Node>, atom: &Shared<Atom>) -> Option<&'a [Shared<Node>]>
    ensures value { (d : ℕ) → EachInBody (Fits d) body.now
        → option_map (row_view d) (option_copied result) ≡ row_at (ops d) (body_view d body.now) atom.now }
    ensures each { (d : ℕ) → EachInBody (Fits d) body.now → IfSome result (λ r. EachNode (Fits d) r.now) }
{
    match body {
        BodyOf::Product(row) => rest_of_product(row.as_slice(), atom),
        BodyOf::Tags(tags) => find_tag(tags.as_slice(), atom.get()),
    }
}

// The types after the first, where it has the atom.
fn rest_of_product<'a>(row: &'a [Shared<Node>], atom: &Shared<Atom>) -> Option<&'a [Shared<Node>]>
    ensures value { (d : ℕ) → EachNode (Fits d) row.now
        → option_map (row_view d) (option_copied result) ≡ row_at (ops d) (product (row_view d row.now)) atom.now }
    ensures each { (d : ℕ) → EachNode (Fits d) row.now → IfSome result (λ r. EachNode (Fits d) r.now) }
{
    let (first, rest) = row.split_first()?;
    if has_atom(first.get(), atom) {
        Some(rest)
    } else {
        None
    }
}

/// What stands after a tag.
#[tactic(auto, using(crate::proofs::Nodes::tag_found, crate::proofs::Nodes::tag_passed))]
pub fn find_tag<'a>(tags: &'a [TagOf<Node>], atom: &Atom) -> Option<&'a [Shared<Node>]>
    ensures value { (d : ℕ) → option_map (row_view d) (option_copied result) ≡ find name_cmp (tags_view d tags.now) atom.now }
    ensures each { (d : ℕ) → EachTag (Fits d) tags.now → IfSome result (λ r. EachNode (Fits d) r.now) }
{
    for tag in tags {
        if tag.atom.get().is(atom) {
            return Some(tag.rest.as_slice());
        }
    }
    None
}

/// Where the tag of an atom stands, from a position on.
#[tactic(auto, using(crate::proofs::Nodes::tag_passed))]
pub fn find_tag_from(tags: &[TagOf<Node>], from: usize, atom: &Atom) -> Option<usize>
    ensures within { IfSome result (λ at. at < length tags.now) }
    ensures found { IfSome result (λ at. option_map (λ t. t.atom) (slice_get tags.now at) ≡ Some atom.now) }
    ensures missing { IfNone result ((d : ℕ) → find name_cmp (tags_view d (drop from tags.now)) atom.now ≡ None) }
{
    for at in from..tags.len() {
        if tags[at].atom.get().is(atom) {
            return Some(at);
        }
    }
    None
}

/// The type of these parts: every value where all of them are full.
#[tactic(auto, using(crate::proofs::Views::any_fits, crate::proofs::Views::view_any, crate::proofs::Views::of_fits, crate::proofs::Views::view_of, crate::proofs::Nodes::any_is_full))]
pub fn made(parts: PartsOf<Node>) -> Node
    ensures fits { (d : ℕ) → PartsFit d parts → Fits (suc d) result }
    ensures value { (d : ℕ) → PartsFit d parts → view (suc d) result ≡ parts_view d parts }
{
    if is_full(&parts) {
        discard_parts(parts);
        Node::Any
    } else {
        Node::Of(parts)
    }
}

/// Whether every value is there.
#[tactic(auto, using(crate::proofs::Nodes::open_cell, crate::proofs::Nodes::full_parts))]
pub fn is_full(parts: &PartsOf<Node>) -> bool
    ensures { (d : ℕ) → PartsFit d parts.now → IsTrue result ↔ (parts_view d parts.now ≡ parts_any (ops d)) }
{
    if !parts.plain.is_all() {
        return false;
    }
    let Some(cell) = &parts.cell else {
        return false;
    };
    if cell.is_proper {
        return false;
    }
    let Node::Any = cell.element.get() else {
        return false;
    };
    matches!(parts.tuples, TuplesOf::All)
}

pub fn discard_parts(_parts: PartsOf<Node>) {}
