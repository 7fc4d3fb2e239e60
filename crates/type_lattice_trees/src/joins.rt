//! The least type that contains two types.
ghost use Rattle.std.specs.Prelude.{◌≡◌, ℕ, suc, ◌<◌, Some, slice_get, IfOk};
ghost use Rattle.std.specs.Ordering.{nat_cmp};
ghost use Rattle.type_kinds_sets.specs.Names.{name_cmp, every, or_else};
ghost use Rattle.type_lattice_model.specs.Operations.{ops, cell_join, row_join, elements, all_rows_join, tags_join};
ghost use Rattle.type_lattice_model.specs.Operations.{capped_tags, body_join, capped_sizes, tuples_join, parts_join};
ghost use Rattle.type_lattice_model.specs.Tables.{keys, held, put, united};
ghost use Rattle.type_lattice_model.specs.Shapes.{tags as tagged};
ghost use Rattle.type_lattice_trees.specs.View.{view, Fits, row_view, tags_view, body_view, sizes_view, tuples_view, cell_view};
ghost use Rattle.type_lattice_trees.specs.View.{parts_view, EachNode, EachTag, EachInBody, EachSize, EachInTuples};
ghost use Rattle.type_lattice_trees.specs.View.{EachInCell, RowFits, TagsFit, BodyFits, SizesFit, TuplesFit, CellFits, PartsFit};

use crate::copies::{copy, copy_cell, copy_row, copy_size, copy_sizes, copy_tag, copy_tags};
use crate::inclusion::{leq, leq_row};
use crate::makers::plain_alone;
use crate::node::{BodyOf, CellOf, Node, PartsOf, SizeOf, TagOf, TuplesOf, made};
use crate::plain::Plain;
use crate::positions::{insert_size, insert_tag, position_of_size, position_of_tag};
use std::alloc::Global;
use type_kinds::{List, Memory, Shared};
use type_kinds_sets::{AtomSet, MAX_MEMBERS, SharedList};
use type_lattice_model::MAX_SIZES;

/// The least type that contains both. Where one is part of the other, the other is shared.
#[cycle(joins)]
#[tactic(auto, using(crate::proofs::JoinLaws::joined_below, crate::proofs::JoinLaws::joined_above))]
pub fn join(alloc: Global, level: u32, a: &Node, b: &Node) -> Result<Node, Memory>
    requires a { Fits level a.now }
    requires b { Fits level b.now }
    ensures fits { IfOk result (λ j. Fits level j) }
    ensures value { IfOk result (λ j. view level j ≡ (ops level).join (view level a.now) (view level b.now)) }
{
    if leq(level, a, b) {
        return copy(b);
    }
    if leq(level, b, a) {
        return copy(a);
    }
    join_apart(alloc, level, a, b)
}

// The same of two types, neither of which need be part of the other.
#[cycle(joins)]
#[tactic(auto, using(crate::proofs::Views::of_above, crate::proofs::JoinLaws::any_left, crate::proofs::JoinLaws::any_right))]
fn join_apart(alloc: Global, level: u32, a: &Node, b: &Node) -> Result<Node, Memory>
    requires a { Fits level a.now }
    requires b { Fits level b.now }
    ensures fits { IfOk result (λ j. Fits level j) }
    ensures value { IfOk result (λ j. view level j ≡ (ops level).join (view level a.now) (view level b.now)) }
{
    match a {
        Node::Any => Ok(Node::Any),
        Node::Of(parts) => match b {
            Node::Any => Ok(Node::Any),
            Node::Of(others) => Ok(made(join_parts(alloc, level - 1, parts, others)?)),
        },
    }
}

// The levels below are those of the elements.
#[cycle(joins)]
fn join_parts(
    alloc: Global,
    level: u32,
    a: &PartsOf<Node>,
    b: &PartsOf<Node>,
) -> Result<PartsOf<Node>, Memory>
    requires a { PartsFit level a.now }
    requires b { PartsFit level b.now }
    ensures fits { IfOk result (λ j. PartsFit level j) }
    ensures value { IfOk result (λ j. parts_view level j ≡ parts_join (ops level) (parts_view level a.now) (parts_view level b.now)) }
{
    let cell = join_cell(alloc, level, &a.cell, &b.cell)?;
    let tuples = join_tuples(alloc, level, &a.tuples, &b.tuples)?;
    let plain = a.plain.join(alloc, &b.plain)?;
    Ok(PartsOf {
        plain,
        cell,
        tuples,
    })
}

#[cycle(joins)]
fn join_cell(
    alloc: Global,
    level: u32,
    a: &Option<CellOf<Node>>,
    b: &Option<CellOf<Node>>,
) -> Result<Option<CellOf<Node>>, Memory>
    requires a { CellFits level a.now }
    requires b { CellFits level b.now }
    ensures value { IfOk result (λ j. cell_view level j ≡ cell_join (ops level) (cell_view level a.now) (cell_view level b.now)) }
    ensures each { IfOk result (λ j. EachInCell (Fits level) j) }
{
    match a {
        None => copy_cell(b),
        Some(one) => match b {
            None => copy_cell(a),
            Some(two) => {
                let element = join(alloc, level, one.element.get(), two.element.get())?;
                Ok(Some(CellOf {
                    element: Shared::new(alloc, element)?,
                    is_proper: one.is_proper && two.is_proper,
                }))
            }
        },
    }
}

// The same of two elements: where one is part of the other, the other is shared.
#[cycle(joins)]
#[tactic(auto, using(crate::proofs::JoinLaws::joined_below, crate::proofs::JoinLaws::joined_above))]
fn join_element(
    alloc: Global,
    level: u32,
    a: &Shared<Node>,
    b: &Shared<Node>,
) -> Result<Shared<Node>, Memory>
    requires a { Fits level a.now }
    requires b { Fits level b.now }
    ensures fits { IfOk result (λ j. Fits level j) }
    ensures value { IfOk result (λ j. view level j ≡ (ops level).join (view level a.now) (view level b.now)) }
{
    if leq(level, a.get(), b.get()) {
        return b.share();
    }
    if leq(level, b.get(), a.get()) {
        return a.share();
    }
    Shared::new(alloc, join_apart(alloc, level, a.get(), b.get())?)
}

// The types of two products, position by position.
#[cycle(joins)]
#[tactic(auto, using(crate::proofs::JoinLaws::row_more))]
fn join_row(
    alloc: Global,
    level: u32,
    a: &[Shared<Node>],
    b: &[Shared<Node>],
) -> Result<List<Shared<Node>>, Memory>
    requires { (n : ℕ) × (RowFits level n a.now × RowFits level n b.now) }
    ensures value { IfOk result (λ j. row_view level j ≡ row_join (ops level) (row_view level a.now) (row_view level b.now)) }
    ensures each { IfOk result (λ j. EachNode (Fits level) j) }
{
    let mut out = List::new(alloc);
    for i in 0..a.len() {
        let joined = join_element(alloc, level, &a[i], &b[i])?;
        out.add(joined)?;
    }
    Ok(out)
}

// The same of two shared rows: where one is part of the other, the other is shared.
#[cycle(joins)]
fn join_rest(
    alloc: Global,
    level: u32,
    a: &SharedList<Shared<Node>>,
    b: &SharedList<Shared<Node>>,
) -> Result<SharedList<Shared<Node>>, Memory>
    requires { (n : ℕ) × (RowFits level n a.now × RowFits level n b.now) }
    ensures value { IfOk result (λ j. row_view level j ≡ row_join (ops level) (row_view level a.now) (row_view level b.now)) }
    ensures each { IfOk result (λ j. EachNode (Fits level) j) }
{
    let one = a.as_slice();
    let two = b.as_slice();
    if leq_row(level, two, one) {
        return a.share();
    }
    if leq_row(level, one, two) {
        return b.share();
    }
    SharedList::new(alloc, join_row(alloc, level, one, two)?)
}

// The least product that contains the rests of the tags, of which there is one at least.
#[cycle(joins)]
fn join_rests(alloc: Global, level: u32, tags: &[TagOf<Node>]) -> Result<List<Shared<Node>>, Memory>
    requires { (n : ℕ) × TagsFit level n tags.now }
    ensures value { IfOk result (λ j. row_view level j ≡ all_rows_join (ops level) (held (tags_view level tags.now))) }
    ensures each { IfOk result (λ j. EachNode (Fits level) j) }
{
    let mut out = copy_row(alloc, tags[0].rest.as_slice())?;
    for i in 1..tags.len() {
        out = join_row(alloc, level, out.as_slice(), tags[i].rest.as_slice())?;
    }
    Ok(out)
}

// The element types of the least product that contains the tags, of which there is one at least.
#[cycle(joins)]
#[tactic(auto, using(crate::proofs::JoinLaws::tags_elements))]
pub fn elements_of_tags(
    alloc: Global,
    level: u32,
    tags: &[TagOf<Node>],
) -> Result<List<Shared<Node>>, Memory>
    requires fits { (n : ℕ) × TagsFit level n tags.now }
    requires above { 0 < level }
    ensures value { IfOk result (λ j. row_view level j ≡ elements (ops level) (tagged (tags_view level tags.now))) }
    ensures each { IfOk result (λ j. EachNode (Fits level) j) }
{
    let mut out = join_rests(alloc, level, tags)?;
    let first = atoms_of(alloc, tags)?;
    out.insert(0, Shared::new(alloc, first)?)?;
    Ok(out)
}

// The element types of the least product that contains a body.
#[cycle(joins)]
pub fn elements_of(
    alloc: Global,
    level: u32,
    body: &BodyOf<Node>,
) -> Result<SharedList<Shared<Node>>, Memory>
    requires { (n : ℕ) × BodyFits level n body.now }
    ensures value { IfOk result (λ j. row_view level j ≡ elements (ops level) (body_view level body.now)) }
    ensures each { IfOk result (λ j. EachNode (Fits level) j) }
{
    match body {
        BodyOf::Product(row) => row.share(),
        BodyOf::Tags(tags) => {
            SharedList::new(alloc, elements_of_tags(alloc, level, tags.as_slice())?)
        }
    }
}

/// The type of an element of a body's tuples, the first at 0.
pub fn element_of(alloc: Global, level: u32, body: &BodyOf<Node>, at: usize) -> Result<Node, Memory>
    requires { (n : ℕ) × (BodyFits level n body.now × (at < n)) }
    ensures fits { IfOk result (λ n. Fits level n) }
    ensures value { IfOk result (λ n. Some (view level n) ≡ slice_get (elements (ops level) (body_view level body.now)) at) }
{
    match body {
        BodyOf::Product(row) => copy(row.as_slice()[at].get()),
        BodyOf::Tags(tags) => {
            if at == 0 {
                atoms_of(alloc, tags.as_slice())
            } else {
                element_of_rests(alloc, level, tags.as_slice(), at - 1)
            }
        }
    }
}

// The join of what stands at a position of the rests of the tags, of which there is one at least.
fn element_of_rests(
    alloc: Global,
    level: u32,
    tags: &[TagOf<Node>],
    at: usize,
) -> Result<Node, Memory>
    requires { (n : ℕ) × (TagsFit level n tags.now × (at < n)) }
    ensures fits { IfOk result (λ n. Fits level n) }
    ensures value { IfOk result (λ n. Some (view level n) ≡ slice_get (all_rows_join (ops level) (held (tags_view level tags.now))) at) }
{
    let mut out = copy(tags[0].rest.as_slice()[at].get())?;
    for i in 1..tags.len() {
        out = join(alloc, level, &out, tags[i].rest.as_slice()[at].get())?;
    }
    Ok(out)
}

// Puts a tag among others: it goes to its position, or what follows it is joined with what follows the
// same tag there.
#[cycle(joins)]
fn put_tag(
    alloc: Global,
    level: u32,
    tags: &mut Vec<TagOf<Node>>,
    tag: &TagOf<Node>,
) -> Result<(), Memory>
    requires { (n : ℕ) × (TagsFit level n tags.old.items × RowFits level n tag.now.rest) }
    ensures value { IfOk result (λ _. tags_view level tags.new.items
        ≡ put name_cmp (row_join (ops level)) tag.now.atom (row_view level tag.now.rest) (tags_view level tags.old.items)) }
    ensures each { IfOk result (λ _. EachTag (Fits level) tags.new.items) }
{
    match position_of_tag(tags.as_slice(), &tag.atom) {
        Err(at) => {
            let copied = copy_tag(tag)?;
            insert_tag(tags, at, copied)
        }
        Ok(at) => {
            let rest = join_rest(alloc, level, &tags[at].rest, &tag.rest)?;
            tags[at].rest = rest;
            Ok(())
        }
    }
}

// The tags of both, and what follows them joined. There may be too many.
#[cycle(joins)]
#[tactic(auto, using(crate::proofs::JoinLaws::entries_step))]
fn join_tags(
    alloc: Global,
    level: u32,
    a: &[TagOf<Node>],
    b: &[TagOf<Node>],
) -> Result<List<TagOf<Node>>, Memory>
    requires { (n : ℕ) × (TagsFit level n a.now × TagsFit level n b.now) }
    ensures value { IfOk result (λ j. tags_view level j ≡ tags_join (ops level) (tags_view level a.now) (tags_view level b.now)) }
    ensures each { IfOk result (λ j. EachTag (Fits level) j) }
{
    let mut out = copy_tags(alloc, a)?.into_vec();
    for tag in b {
        put_tag(alloc, level, &mut out, tag)?;
    }
    Ok(List::from_vec(out))
}

// The tags, or if they are more than `MAX_MEMBERS` the least product that contains them.
#[cycle(joins)]
fn cap_tags(alloc: Global, level: u32, tags: List<TagOf<Node>>) -> Result<BodyOf<Node>, Memory>
    requires fits { (n : ℕ) × TagsFit level n tags }
    requires above { 0 < level }
    ensures value { IfOk result (λ j. body_view level j ≡ capped_tags (ops level) (tags_view level tags)) }
    ensures each { IfOk result (λ j. EachInBody (Fits level) j) }
{
    if tags.len() <= MAX_MEMBERS {
        return Ok(BodyOf::Tags(SharedList::new(alloc, tags)?));
    }
    let row = elements_of_tags(alloc, level, tags.as_slice())?;
    Ok(BodyOf::Product(SharedList::new(alloc, row)?))
}

#[cycle(joins)]
fn join_body(
    alloc: Global,
    level: u32,
    a: &BodyOf<Node>,
    b: &BodyOf<Node>,
) -> Result<BodyOf<Node>, Memory>
    requires { (n : ℕ) × (BodyFits level n a.now × BodyFits level n b.now) }
    ensures value { IfOk result (λ j. body_view level j ≡ body_join (ops level) (body_view level a.now) (body_view level b.now)) }
    ensures each { IfOk result (λ j. EachInBody (Fits level) j) }
{
    match a {
        BodyOf::Tags(tags) => match b {
            BodyOf::Tags(others) => {
                let joined = join_tags(alloc, level, tags.as_slice(), others.as_slice())?;
                cap_tags(alloc, level, joined)
            }
            BodyOf::Product(row) => {
                let elements = elements_of(alloc, level, a)?;
                Ok(BodyOf::Product(join_rest(alloc, level, &elements, row)?))
            }
        },
        BodyOf::Product(row) => {
            let elements = elements_of(alloc, level, b)?;
            Ok(BodyOf::Product(join_rest(alloc, level, row, &elements)?))
        }
    }
}

// Puts the tuples of a size among others.
#[cycle(joins)]
fn put_size(
    alloc: Global,
    level: u32,
    sizes: &mut Vec<SizeOf<Node>>,
    size: &SizeOf<Node>,
) -> Result<(), Memory>
    requires sizes { SizesFit level sizes.old.items }
    requires size { BodyFits level size.now.size size.now.body }
    ensures value { IfOk result (λ _. sizes_view level sizes.new.items
        ≡ put nat_cmp (body_join (ops level)) size.now.size (body_view level size.now.body) (sizes_view level sizes.old.items)) }
    ensures each { IfOk result (λ _. EachSize (Fits level) sizes.new.items) }
{
    match position_of_size(sizes.as_slice(), size.size) {
        Err(at) => {
            let copied = copy_size(size)?;
            insert_size(sizes, at, copied)
        }
        Ok(at) => {
            let body = join_body(alloc, level, &sizes[at].body, &size.body)?;
            sizes[at].body = body;
            Ok(())
        }
    }
}

// The tuples of the sizes of both. There may be too many sizes.
#[cycle(joins)]
#[tactic(auto, using(crate::proofs::JoinLaws::entries_step))]
fn join_sizes(
    alloc: Global,
    level: u32,
    a: &[SizeOf<Node>],
    b: &[SizeOf<Node>],
) -> Result<List<SizeOf<Node>>, Memory>
    requires a { SizesFit level a.now }
    requires b { SizesFit level b.now }
    ensures value { IfOk result (λ j. sizes_view level j ≡ united nat_cmp (body_join (ops level)) (sizes_view level a.now) (sizes_view level b.now)) }
    ensures each { IfOk result (λ j. EachSize (Fits level) j) }
{
    let mut out = copy_sizes(alloc, a)?.into_vec();
    for size in b {
        put_size(alloc, level, &mut out, size)?;
    }
    Ok(List::from_vec(out))
}

#[cycle(joins)]
fn join_tuples(
    alloc: Global,
    level: u32,
    a: &TuplesOf<Node>,
    b: &TuplesOf<Node>,
) -> Result<TuplesOf<Node>, Memory>
    requires a { TuplesFit level a.now }
    requires b { TuplesFit level b.now }
    ensures value { IfOk result (λ j. tuples_view level j ≡ tuples_join (ops level) (tuples_view level a.now) (tuples_view level b.now)) }
    ensures each { IfOk result (λ j. EachInTuples (Fits level) j) }
{
    match a {
        TuplesOf::All => Ok(TuplesOf::All),
        TuplesOf::Sizes(sizes) => match b {
            TuplesOf::All => Ok(TuplesOf::All),
            TuplesOf::Sizes(others) => {
                let joined = join_sizes(alloc, level, sizes.as_slice(), others.as_slice())?;
                cap_sizes(alloc, joined)
            }
        },
    }
}

// The sizes, or all tuples if they are more than `MAX_SIZES`.
fn cap_sizes(alloc: Global, sizes: List<SizeOf<Node>>) -> Result<TuplesOf<Node>, Memory>
    ensures value { IfOk result (λ t. (d : ℕ) → tuples_view d t ≡ capped_sizes (ops d) (sizes_view d sizes)) }
    ensures each { IfOk result (λ t. (d : ℕ) → EachSize (Fits d) sizes → EachInTuples (Fits d) t) }
{
    if sizes.len() <= MAX_SIZES {
        Ok(TuplesOf::Sizes(SharedList::new(alloc, sizes)?))
    } else {
        Ok(TuplesOf::All)
    }
}

// The type of the atoms of the tags: all atoms where they are more than `MAX_MEMBERS`.
fn atoms_of(alloc: Global, tags: &[TagOf<Node>]) -> Result<Node, Memory>
    ensures fits { IfOk result (λ t. (d : ℕ) → Fits (suc d) t) }
    ensures value { IfOk result (λ t. (d : ℕ) → view (suc d) t ≡ (ops (suc d)).of_names (keys (tags_view (suc d) tags.now))) }
{
    Ok(plain_alone(Plain::of_atoms(tag_atoms(alloc, tags)?)))
}

// The atoms of the tags, and all atoms where a set can't list them.
fn tag_atoms(alloc: Global, tags: &[TagOf<Node>]) -> Result<AtomSet, Memory>
    ensures { IfOk result (λ s. (d : ℕ) → s ≡ or_else (keys (tags_view d tags.now)) every) }
{
    let mut atoms = List::new(alloc);
    for tag in tags {
        atoms.add(tag.atom.share()?)?;
    }
    if AtomSet::can_list(atoms.as_slice()) {
        AtomSet::listed(alloc, atoms)
    } else {
        Ok(AtomSet::all())
    }
}
