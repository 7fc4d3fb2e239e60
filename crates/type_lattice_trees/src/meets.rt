//! The type whose values are those of both.
ghost use Rattle.std.specs.Prelude.{◌≡◌, ℕ, suc, IfOk, IfSome, option_map};
ghost use Rattle.type_lattice_model.specs.Operations.{ops, or_none, some_tags, cell_meet, row_meet, body_of};
ghost use Rattle.type_lattice_model.specs.Operations.{tags_meet, body_meet, sizes_meet, tuples_meet, parts_meet};
ghost use Rattle.type_lattice_model.specs.Tables.{all_hold};
ghost use Rattle.type_lattice_trees.specs.View.{view, Fits, row_view, tags_view, body_view, sizes_view, tuples_view, cell_view, parts_view, EachNode};
ghost use Rattle.type_lattice_trees.specs.View.{EachTag, EachInBody, EachSize, RowFits, TagsFit, BodyFits, SizesFit, TuplesFit, CellFits, PartsFit};

use crate::copies::{copy, copy_row, copy_tuples};
use crate::inclusion::{leq, leq_row};
use crate::node::{
    BodyOf, CellOf, Node, PartsOf, SizeOf, TagOf, TuplesOf, discard, find_size, is_none,
    only_atoms, rest_after,
};
use std::alloc::Global;
use type_kinds::{Atom, List, Memory, Shared};
use type_kinds_sets::SharedList;

/// The type whose values are those of both. Where one is part of the other it is shared.
#[cycle(meets)]
#[tactic(auto, using(crate::proofs::MeetViews::met_below, crate::proofs::MeetViews::met_above))]
pub fn meet(alloc: Global, level: u32, a: &Node, b: &Node) -> Result<Node, Memory>
    requires a { Fits level a.now }
    requires b { Fits level b.now }
    ensures fits { IfOk result (λ m. Fits level m) }
    ensures value { IfOk result (λ m. view level m ≡ (ops level).meet (view level a.now) (view level b.now)) }
{
    if leq(level, a, b) {
        return copy(a);
    }
    if leq(level, b, a) {
        return copy(b);
    }
    meet_apart(alloc, level, a, b)
}

// The same of two types, neither of which need be part of the other.
#[cycle(meets)]
#[tactic(auto, using(crate::proofs::Views::of_above, crate::proofs::MeetViews::meet_of_any, crate::proofs::MeetViews::meet_with_any, crate::proofs::MeetViews::meet_of_parts))]
fn meet_apart(alloc: Global, level: u32, a: &Node, b: &Node) -> Result<Node, Memory>
    requires a { Fits level a.now }
    requires b { Fits level b.now }
    ensures fits { IfOk result (λ m. Fits level m) }
    ensures value { IfOk result (λ m. view level m ≡ (ops level).meet (view level a.now) (view level b.now)) }
{
    match a {
        Node::Any => copy(b),
        Node::Of(parts) => match b {
            Node::Any => copy(a),
            Node::Of(others) => Ok(Node::Of(meet_parts(alloc, level - 1, parts, others)?)),
        },
    }
}

// The levels below are those of the elements.
#[cycle(meets)]
fn meet_parts(
    alloc: Global,
    level: u32,
    a: &PartsOf<Node>,
    b: &PartsOf<Node>,
) -> Result<PartsOf<Node>, Memory>
    requires a { PartsFit level a.now }
    requires b { PartsFit level b.now }
    ensures fits { IfOk result (λ m. PartsFit level m) }
    ensures value { IfOk result (λ m. parts_view level m ≡ parts_meet (ops level) (parts_view level a.now) (parts_view level b.now)) }
{
    let cell = meet_cell(alloc, level, &a.cell, &b.cell)?;
    let tuples = meet_tuples(alloc, level, &a.tuples, &b.tuples)?;
    let plain = a.plain.meet(alloc, &b.plain)?;
    Ok(PartsOf {
        plain,
        cell,
        tuples,
    })
}

#[cycle(meets)]
fn meet_cell(
    alloc: Global,
    level: u32,
    a: &Option<CellOf<Node>>,
    b: &Option<CellOf<Node>>,
) -> Result<Option<CellOf<Node>>, Memory>
    requires a { CellFits level a.now }
    requires b { CellFits level b.now }
    ensures fits { IfOk result (λ m. CellFits level m) }
    ensures value { IfOk result (λ m. cell_view level m ≡ cell_meet (ops level) (cell_view level a.now) (cell_view level b.now)) }
{
    match a {
        None => Ok(None),
        Some(one) => match b {
            None => Ok(None),
            Some(two) => {
                let element = meet(alloc, level, one.element.get(), two.element.get())?;
                some_cell(alloc, element, one.is_proper || two.is_proper)
            }
        },
    }
}

// The lists of an element type, of which there are none where it has no value.
#[tactic(auto, using(crate::proofs::Views::fits_normal))]
fn some_cell(alloc: Global, element: Node, is_proper: bool) -> Result<Option<CellOf<Node>>, Memory>
    ensures value { IfOk result (λ m. (d : ℕ) → Fits d element
        → cell_view d m ≡ or_none ((ops d).is_none (view d element)) (record { element = view d element; is_proper = is_proper })) }
    ensures fits { IfOk result (λ m. (d : ℕ) → Fits d element → CellFits d m) }
{
    if is_none(&element) {
        discard(element);
        return Ok(None);
    }
    Ok(Some(CellOf {
        element: Shared::new(alloc, element)?,
        is_proper,
    }))
}

// The same of two elements: where one is part of the other it is shared.
#[cycle(meets)]
#[tactic(auto, using(crate::proofs::MeetViews::met_below, crate::proofs::MeetViews::met_above))]
fn meet_element(
    alloc: Global,
    level: u32,
    a: &Shared<Node>,
    b: &Shared<Node>,
) -> Result<Shared<Node>, Memory>
    requires a { Fits level a.now }
    requires b { Fits level b.now }
    ensures fits { IfOk result (λ m. Fits level m) }
    ensures value { IfOk result (λ m. view level m ≡ (ops level).meet (view level a.now) (view level b.now)) }
{
    if leq(level, a.get(), b.get()) {
        return a.share();
    }
    if leq(level, b.get(), a.get()) {
        return b.share();
    }
    Shared::new(alloc, meet_apart(alloc, level, a.get(), b.get())?)
}

fn discard_element(_t: Shared<Node>) {}

// The types of two products, position by position: none where some position has no value.
#[cycle(meets)]
#[tactic(auto, using(crate::proofs::JoinLaws::row_more, crate::proofs::MeetViews::row_none, crate::proofs::MeetViews::filled_more, crate::proofs::Views::each_more))]
fn meet_row(
    alloc: Global,
    level: u32,
    a: &[Shared<Node>],
    b: &[Shared<Node>],
) -> Result<Option<List<Shared<Node>>>, Memory>
    requires { (n : ℕ) × (RowFits level n a.now × RowFits level n b.now) }
    ensures value { IfOk result (λ m. option_map (row_view level) m ≡ row_meet (ops level) (row_view level a.now) (row_view level b.now)) }
    ensures each { IfOk result (λ m. IfSome m (λ r. EachNode (Fits level) r)) }
{
    let mut out = List::new(alloc);
    for i in 0..a.len() {
        let met = meet_element(alloc, level, &a[i], &b[i])?;
        if is_none(met.get()) {
            discard_element(met);
            return Ok(None);
        }
        out.add(met)?;
    }
    Ok(Some(out))
}

// The same of two shared rows: the first is shared where it is part of the second.
#[cycle(meets)]
fn meet_rest(
    alloc: Global,
    level: u32,
    a: &SharedList<Shared<Node>>,
    b: &[Shared<Node>],
) -> Result<Option<SharedList<Shared<Node>>>, Memory>
    requires { (n : ℕ) × (RowFits level n a.now × RowFits level n b.now) }
    ensures value { IfOk result (λ m. option_map (row_view level) m ≡ row_meet (ops level) (row_view level a.now) (row_view level b.now)) }
    ensures each { IfOk result (λ m. IfSome m (λ r. EachNode (Fits level) r)) }
{
    let row = a.as_slice();
    if leq_row(level, row, b) {
        return Ok(Some(a.share()?));
    }
    match meet_row(alloc, level, row, b)? {
        None => Ok(None),
        Some(row) => Ok(Some(SharedList::new(alloc, row)?)),
    }
}

/// A product in normal form: where the first type is a set of at most thirteen atoms, each is a tag.
pub fn product_body(
    alloc: Global,
    level: u32,
    row: SharedList<Shared<Node>>,
) -> Result<BodyOf<Node>, Memory>
    requires { EachNode (Fits level) row }
    ensures value { IfOk result (λ b. body_view level b ≡ body_of (ops level) (row_view level row)) }
    ensures each { IfOk result (λ b. EachInBody (Fits level) b) }
{
    let Some((first, rest)) = row.as_slice().split_first() else {
        return Ok(BodyOf::Product(row));
    };
    let Some(atoms) = only_atoms(first.get()) else {
        return Ok(BodyOf::Product(row));
    };
    let tags = spread(alloc, level, atoms, rest)?;
    Ok(BodyOf::Tags(SharedList::new(alloc, tags)?))
}

// The same types after each of the atoms.
fn spread(
    alloc: Global,
    level: u32,
    atoms: &[Shared<Atom>],
    rest: &[Shared<Node>],
) -> Result<List<TagOf<Node>>, Memory>
    requires { EachNode (Fits level) rest.now }
    ensures value { IfOk result (λ tags. tags_view level tags ≡ all_hold atoms.now (row_view level rest.now)) }
    ensures each { IfOk result (λ tags. EachTag (Fits level) tags) }
{
    let shared = SharedList::new(alloc, copy_row(alloc, rest)?)?;
    let mut out = List::new(alloc);
    for atom in atoms {
        out.add(TagOf {
            atom: atom.share()?,
            rest: shared.share()?,
        })?;
    }
    Ok(out)
}

// What the tags and the body have in common, tag by tag.
#[cycle(meets)]
fn meet_tags(
    alloc: Global,
    level: u32,
    a: &[TagOf<Node>],
    b: &BodyOf<Node>,
) -> Result<Option<BodyOf<Node>>, Memory>
    requires { (n : ℕ) × (TagsFit level n a.now × BodyFits level (suc n) b.now) }
    ensures value { IfOk result (λ m. option_map (body_view level) m
        ≡ some_tags (ops level) (tags_meet (ops level) (tags_view level a.now) (body_view level b.now))) }
    ensures each { IfOk result (λ m. IfSome m (λ c. EachInBody (Fits level) c)) }
{
    let mut out = List::new(alloc);
    for tag in a {
        if let Some(other) = rest_after(b, &tag.atom) {
            if let Some(rest) = meet_rest(alloc, level, &tag.rest, other)? {
                let atom = tag.atom.share()?;
                out.add(TagOf { atom, rest })?;
            }
        }
    }
    if out.is_empty() {
        Ok(None)
    } else {
        Ok(Some(BodyOf::Tags(SharedList::new(alloc, out)?)))
    }
}

#[cycle(meets)]
fn meet_body(
    alloc: Global,
    level: u32,
    a: &BodyOf<Node>,
    b: &BodyOf<Node>,
) -> Result<Option<BodyOf<Node>>, Memory>
    requires { (n : ℕ) × (BodyFits level n a.now × BodyFits level n b.now) }
    ensures value { IfOk result (λ m. option_map (body_view level) m ≡ body_meet (ops level) (body_view level a.now) (body_view level b.now)) }
    ensures each { IfOk result (λ m. IfSome m (λ c. EachInBody (Fits level) c)) }
{
    match a {
        BodyOf::Tags(tags) => meet_tags(alloc, level, tags.as_slice(), b),
        BodyOf::Product(row) => match b {
            BodyOf::Tags(tags) => meet_tags(alloc, level, tags.as_slice(), a),
            BodyOf::Product(other) => {
                match meet_rest(alloc, level, row, other.as_slice())? {
                    None => Ok(None),
                    Some(row) => Ok(Some(product_body(alloc, level, row)?)),
                }
            }
        },
    }
}

#[cycle(meets)]
fn meet_sizes(
    alloc: Global,
    level: u32,
    a: &[SizeOf<Node>],
    b: &[SizeOf<Node>],
) -> Result<List<SizeOf<Node>>, Memory>
    requires a { SizesFit level a.now }
    requires b { SizesFit level b.now }
    ensures value { IfOk result (λ m. sizes_view level m ≡ sizes_meet (ops level) (sizes_view level a.now) (sizes_view level b.now)) }
    ensures each { IfOk result (λ m. EachSize (Fits level) m) }
{
    let mut out = List::new(alloc);
    for size in a {
        if let Some(other) = find_size(b, size.size) {
            if let Some(body) = meet_body(alloc, level, &size.body, other)? {
                out.add(SizeOf {
                    size: size.size,
                    body,
                })?;
            }
        }
    }
    Ok(out)
}

#[cycle(meets)]
fn meet_tuples(
    alloc: Global,
    level: u32,
    a: &TuplesOf<Node>,
    b: &TuplesOf<Node>,
) -> Result<TuplesOf<Node>, Memory>
    requires a { TuplesFit level a.now }
    requires b { TuplesFit level b.now }
    ensures fits { IfOk result (λ m. TuplesFit level m) }
    ensures value { IfOk result (λ m. tuples_view level m ≡ tuples_meet (ops level) (tuples_view level a.now) (tuples_view level b.now)) }
{
    match a {
        TuplesOf::All => copy_tuples(b),
        TuplesOf::Sizes(sizes) => match b {
            TuplesOf::All => copy_tuples(a),
            TuplesOf::Sizes(others) => {
                let met = meet_sizes(alloc, level, sizes.as_slice(), others.as_slice())?;
                Ok(TuplesOf::Sizes(SharedList::new(alloc, met)?))
            }
        },
    }
}
