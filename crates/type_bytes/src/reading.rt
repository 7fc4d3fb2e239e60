// The trees of the types that bytes begin with. Each reader gives what it read and what stands behind it,
// or `NotCanonical` where the bytes begin with no spelling of such a thing.
ghost use Rattle.std.specs.Prelude.{◌≡◌, ℕ, [], None, IfOk};
ghost use Rattle.type_lattice_model.specs.Shapes.{sizes};
ghost use Rattle.type_lattice_model.specs.Operations.{ops};
ghost use Rattle.type_kinds_sets.specs.Names.{name_cmp};
ghost use Rattle.std.specs.Ordering.{nat_cmp};
ghost use Rattle.type_lattice_model.specs.Tables.{is_table};
ghost use Rattle.type_lattice_trees.specs.Plains.{flags_of};
ghost use Rattle.type_lattice_trees.specs.View.{view, row_view, tags_view, body_view, sizes_view, tuples_view, cell_view, parts_view};
ghost use Rattle.type_lattice_trees.specs.View.{Fits, EachNode, EachTag, EachInBody, EachSize, EachInTuples, EachInCell, EachInParts};
ghost use Rattle.type_bytes.specs.steps.Reading.{Reads, many, where_set, mask_flags, element_at, behind_at, masked_at, parts_at};
ghost use Rattle.type_bytes.specs.steps.Reading.{cell_at, tuples_at, sizes_at, size_at, body_at, product_at, tags_at, tag_at, type_at};

use crate::faults::BytesFault;
use crate::leaves::{read_atoms, read_bits, read_functions, read_ints, read_name};
use crate::shapes::has;
use std::alloc::Global;
use type_kinds::{List, Shared};
use type_kinds_sets::SharedList;
use type_lattice_trees::{
    BodyOf, CellOf, FlagSet, Node, PartsOf, Plain, SizeOf, TagOf, TuplesOf, made, plain_alone,
    product_body,
};

/// The type of level 4 that the bytes begin with.
#[tactic(auto, unfolding(crate::specs::steps::Reading::type_at))]
pub fn read_type(alloc: Global, bytes: &[u8]) -> Result<(Node, &[u8]), BytesFault>
    ensures fits { IfOk result (λ p. Fits 4 p.0) }
    ensures read { Reads (λ p. (view 4 p.0, p.1.now)) result (type_at bytes.now) }
{
    let Some((first, rest)) = bytes.split_first() else {
        return Err(BytesFault::NotCanonical);
    };
    if *first == 0 {
        return Ok((plain_alone(Plain::none()), rest));
    }
    read_behind(alloc, 4, *first, rest)
}

// The element of a level.
#[cycle(reading)]
fn read_element(alloc: Global, level: u32, bytes: &[u8]) -> Result<(Node, &[u8]), BytesFault>
    ensures fits { IfOk result (λ p. Fits level p.0) }
    ensures read { Reads (λ p. (view level p.0, p.1.now)) result (element_at level bytes.now) }
{
    match bytes.split_first() {
        Some((first, rest)) => read_behind(alloc, level, *first, rest),
        None => Err(BytesFault::NotCanonical),
    }
}

// The same behind the first byte.
#[cycle(reading)]
fn read_behind(
    alloc: Global,
    level: u32,
    first: u8,
    bytes: &[u8],
) -> Result<(Node, &[u8]), BytesFault>
    ensures fits { IfOk result (λ p. Fits level p.0) }
    ensures read { Reads (λ p. (view level p.0, p.1.now)) result (behind_at level first bytes.now) }
{
    if first == 1 {
        return Ok((Node::Any, bytes));
    }
    if level == 0 {
        return Err(BytesFault::NotCanonical);
    }
    if first != 2 {
        return Err(BytesFault::NotCanonical);
    }
    let (parts, rest) = read_masked(alloc, level - 1, bytes)?;
    match made(parts) {
        Node::Any => Err(BytesFault::NotCanonical),
        Node::Of(parts) => Ok((Node::Of(parts), rest)),
    }
}

// The mask and the parts. Here and below the level is that of the elements.
#[cycle(reading)]
#[tactic(auto, unfolding(crate::specs::steps::Reading::masked_at))]
fn read_masked(
    alloc: Global,
    level: u32,
    bytes: &[u8],
) -> Result<(PartsOf<Node>, &[u8]), BytesFault>
    ensures each { IfOk result (λ p. EachInParts (Fits level) p.0) }
    ensures read { Reads (λ p. (parts_view level p.0, p.1.now)) result (masked_at (ops level) (element_at level) bytes.now) }
{
    let Some((high, later)) = bytes.split_first() else {
        return Err(BytesFault::NotCanonical);
    };
    let Some((low, rest)) = later.split_first() else {
        return Err(BytesFault::NotCanonical);
    };
    let mask = 256 * *high as u16 + *low as u16;
    if mask == 0 || mask >= 4096 {
        return Err(BytesFault::NotCanonical);
    }
    read_parts(alloc, level, mask, rest)
}

// The parts that the mask tells.
#[cycle(reading)]
#[tactic(auto, unfolding(crate::specs::steps::Reading::parts_at))]
fn read_parts(
    alloc: Global,
    level: u32,
    mask: u16,
    bytes: &[u8],
) -> Result<(PartsOf<Node>, &[u8]), BytesFault>
    ensures each { IfOk result (λ p. EachInParts (Fits level) p.0) }
    ensures read { Reads (λ p. (parts_view level p.0, p.1.now)) result (parts_at (ops level) (element_at level) mask bytes.now) }
{
    let (atoms, rest) = read_atoms(alloc, has(mask, 0), bytes)?;
    let (ints, rest) = read_ints(alloc, has(mask, 1), rest)?;
    let (bits, rest) = read_bits(has(mask, 3), rest)?;
    let (functions, rest) = read_functions(has(mask, 7), rest)?;
    let (cell, rest) = read_cell(alloc, level, has(mask, 9), rest)?;
    let (tuples, rest) = read_tuples(alloc, level, has(mask, 10), rest)?;
    let plain = Plain {
        atoms,
        ints,
        bits,
        flags: flags_of_mask(mask),
        functions,
    };
    Ok((
        PartsOf {
            plain,
            cell,
            tuples,
        },
        rest,
    ))
}

// The parts that have no bytes.
fn flags_of_mask(mask: u16) -> FlagSet
    ensures { flags_of result ≡ mask_flags mask }
{
    FlagSet {
        float: has(mask, 2),
        pid: has(mask, 4),
        port: has(mask, 5),
        reference: has(mask, 6),
        nil: has(mask, 8),
        map: has(mask, 11),
    }
}

// Lists that aren't empty, where there are some.
#[cycle(reading)]
#[tactic(auto, unfolding(crate::specs::steps::Reading::cell_at))]
fn read_cell(
    alloc: Global,
    level: u32,
    some: bool,
    bytes: &[u8],
) -> Result<(Option<CellOf<Node>>, &[u8]), BytesFault>
    ensures each { IfOk result (λ p. EachInCell (Fits level) p.0) }
    ensures read { Reads (λ p. (cell_view level p.0, p.1.now)) result (where_set some None (cell_at (ops level) (element_at level)) bytes.now) }
{
    if !some {
        return Ok((None, bytes));
    }
    let Some((first, rest)) = bytes.split_first() else {
        return Err(BytesFault::NotCanonical);
    };
    if *first > 1 {
        return Err(BytesFault::NotCanonical);
    }
    let (element, rest) = read_element(alloc, level, rest)?;
    let cell = CellOf {
        element: Shared::new(alloc, element)?,
        is_proper: *first == 1,
    };
    Ok((Some(cell), rest))
}

// Tuples, where there are some.
#[cycle(reading)]
#[tactic(auto, unfolding(crate::specs::steps::Reading::tuples_at))]
fn read_tuples(
    alloc: Global,
    level: u32,
    some: bool,
    bytes: &[u8],
) -> Result<(TuplesOf<Node>, &[u8]), BytesFault>
    ensures each { IfOk result (λ p. EachInTuples (Fits level) p.0) }
    ensures read { Reads (λ p. (tuples_view level p.0, p.1.now)) result (where_set some (sizes []) (tuples_at (ops level) (element_at level)) bytes.now) }
{
    if !some {
        return Ok((TuplesOf::Sizes(SharedList::empty()), bytes));
    }
    let Some((first, rest)) = bytes.split_first() else {
        return Err(BytesFault::NotCanonical);
    };
    if *first == 0 {
        return Ok((TuplesOf::All, rest));
    }
    if *first > 8 {
        return Err(BytesFault::NotCanonical);
    }
    read_sizes(alloc, level, *first, rest)
}

// `count` sizes, which ascend.
#[cycle(reading)]
#[tactic(auto, unfolding(crate::specs::steps::Reading::sizes_at))]
fn read_sizes(
    alloc: Global,
    level: u32,
    count: u8,
    bytes: &[u8],
) -> Result<(TuplesOf<Node>, &[u8]), BytesFault>
    ensures each { IfOk result (λ p. EachInTuples (Fits level) p.0) }
    ensures read { Reads (λ p. (tuples_view level p.0, p.1.now)) result (sizes_at (ops level) (element_at level) count bytes.now) }
{
    let (list, rest) = list_sizes(alloc, level, count, bytes)?;
    if !sizes_ascend(list.as_slice()) {
        discard_sizes(list);
        return Err(BytesFault::NotCanonical);
    }
    Ok((TuplesOf::Sizes(SharedList::new(alloc, list)?), rest))
}

fn discard_sizes(_sizes: List<SizeOf<Node>>) {}

// `count` sizes.
#[cycle(reading)]
fn list_sizes(
    alloc: Global,
    level: u32,
    count: u8,
    bytes: &[u8],
) -> Result<(List<SizeOf<Node>>, &[u8]), BytesFault>
    ensures each { IfOk result (λ p. EachSize (Fits level) p.0) }
    ensures read { Reads (λ p. (sizes_view level p.0, p.1.now)) result (many count (size_at (ops level) (element_at level)) bytes.now) }
{
    let mut list = List::new(alloc);
    let mut rest = bytes;
    for _ in 0..count {
        let (size, after) = read_size(alloc, level, rest)?;
        list.add(size)?;
        rest = after;
    }
    Ok((list, rest))
}

// Whether each size is below the next.
fn sizes_ascend(list: &[SizeOf<Node>]) -> bool
    ensures { (d : ℕ) → result ≡ is_table nat_cmp (sizes_view d list.now) }
{
    for at in 1..list.len() {
        if list[at - 1].size >= list[at].size {
            return false;
        }
    }
    true
}

// The tuples of one size.
#[cycle(reading)]
#[tactic(auto, unfolding(crate::specs::steps::Reading::size_at))]
fn read_size(alloc: Global, level: u32, bytes: &[u8]) -> Result<(SizeOf<Node>, &[u8]), BytesFault>
    ensures each { IfOk result (λ p. EachInBody (Fits level) p.0.body) }
    ensures read { Reads (λ p. ((p.0.size, body_view level p.0.body), p.1.now)) result (size_at (ops level) (element_at level) bytes.now) }
{
    let Some((size, rest)) = bytes.split_first() else {
        return Err(BytesFault::NotCanonical);
    };
    if *size > 64 {
        return Err(BytesFault::NotCanonical);
    }
    let (body, rest) = read_body(alloc, level, *size, rest)?;
    Ok((SizeOf { size: *size, body }, rest))
}

// A product of `size` elements, or tags.
#[cycle(reading)]
#[tactic(auto, unfolding(crate::specs::steps::Reading::body_at))]
fn read_body(
    alloc: Global,
    level: u32,
    size: u8,
    bytes: &[u8],
) -> Result<(BodyOf<Node>, &[u8]), BytesFault>
    ensures each { IfOk result (λ p. EachInBody (Fits level) p.0) }
    ensures read { Reads (λ p. (body_view level p.0, p.1.now)) result (body_at (ops level) (element_at level) size bytes.now) }
{
    let Some((first, rest)) = bytes.split_first() else {
        return Err(BytesFault::NotCanonical);
    };
    if *first == 0 {
        return read_product(alloc, level, size, rest);
    }
    if size == 0 {
        return Err(BytesFault::NotCanonical);
    }
    if level == 0 {
        return Err(BytesFault::NotCanonical);
    }
    if *first > 13 {
        return Err(BytesFault::NotCanonical);
    }
    read_tags(alloc, level, size - 1, *first, rest)
}

// A product of `size` elements, the first of which is no set of atoms that can be tags.
#[cycle(reading)]
#[tactic(auto, unfolding(crate::specs::steps::Reading::product_at))]
fn read_product(
    alloc: Global,
    level: u32,
    size: u8,
    bytes: &[u8],
) -> Result<(BodyOf<Node>, &[u8]), BytesFault>
    ensures each { IfOk result (λ p. EachInBody (Fits level) p.0) }
    ensures read { Reads (λ p. (body_view level p.0, p.1.now)) result (product_at (ops level) (element_at level) size bytes.now) }
{
    let (row, rest) = read_row(alloc, level, size, bytes)?;
    let body = product_body(alloc, level, SharedList::new(alloc, row)?)?;
    match body {
        BodyOf::Product(row) => Ok((BodyOf::Product(row), rest)),
        BodyOf::Tags(tags) => {
            discard_tags(tags);
            Err(BytesFault::NotCanonical)
        }
    }
}

fn discard_tags(_tags: SharedList<TagOf<Node>>) {}

// `count` tags, which ascend, each with `size` elements behind it.
#[cycle(reading)]
#[tactic(auto, unfolding(crate::specs::steps::Reading::tags_at))]
fn read_tags(
    alloc: Global,
    level: u32,
    size: u8,
    count: u8,
    bytes: &[u8],
) -> Result<(BodyOf<Node>, &[u8]), BytesFault>
    ensures each { IfOk result (λ p. EachInBody (Fits level) p.0) }
    ensures read { Reads (λ p. (body_view level p.0, p.1.now)) result (tags_at (ops level) (element_at level) size count bytes.now) }
{
    let (list, rest) = list_tags(alloc, level, size, count, bytes)?;
    if !tags_ascend(list.as_slice()) {
        discard_list(list);
        return Err(BytesFault::NotCanonical);
    }
    Ok((BodyOf::Tags(SharedList::new(alloc, list)?), rest))
}

fn discard_list(_tags: List<TagOf<Node>>) {}

// `count` tags.
#[cycle(reading)]
fn list_tags(
    alloc: Global,
    level: u32,
    size: u8,
    count: u8,
    bytes: &[u8],
) -> Result<(List<TagOf<Node>>, &[u8]), BytesFault>
    ensures each { IfOk result (λ p. EachTag (Fits level) p.0) }
    ensures read { Reads (λ p. (tags_view level p.0, p.1.now)) result (many count (tag_at (ops level) (element_at level) size) bytes.now) }
{
    let mut list = List::new(alloc);
    let mut rest = bytes;
    for _ in 0..count {
        let (tag, after) = read_tag(alloc, level, size, rest)?;
        list.add(tag)?;
        rest = after;
    }
    Ok((list, rest))
}

// Whether each tag is below the next.
fn tags_ascend(list: &[TagOf<Node>]) -> bool
    ensures { (d : ℕ) → result ≡ is_table name_cmp (tags_view d list.now) }
{
    for at in 1..list.len() {
        if list[at - 1].atom.get() >= list[at].atom.get() {
            return false;
        }
    }
    true
}

// A tag, with `size` elements behind it.
#[cycle(reading)]
#[tactic(auto, unfolding(crate::specs::steps::Reading::tag_at))]
fn read_tag(
    alloc: Global,
    level: u32,
    size: u8,
    bytes: &[u8],
) -> Result<(TagOf<Node>, &[u8]), BytesFault>
    ensures each { IfOk result (λ p. EachNode (Fits level) p.0.rest) }
    ensures read { Reads (λ p. ((p.0.atom, row_view level p.0.rest), p.1.now)) result (tag_at (ops level) (element_at level) size bytes.now) }
{
    let (atom, rest) = read_name(alloc, bytes)?;
    let (row, rest) = read_row(alloc, level, size, rest)?;
    let rest_of_tag = SharedList::new(alloc, row)?;
    Ok((
        TagOf {
            atom,
            rest: rest_of_tag,
        },
        rest,
    ))
}

// `count` elements.
#[cycle(reading)]
fn read_row(
    alloc: Global,
    level: u32,
    count: u8,
    bytes: &[u8],
) -> Result<(List<Shared<Node>>, &[u8]), BytesFault>
    ensures each { IfOk result (λ p. EachNode (Fits level) p.0) }
    ensures read { Reads (λ p. (row_view level p.0, p.1.now)) result (many count (element_at level) bytes.now) }
{
    let mut row = List::new(alloc);
    let mut rest = bytes;
    for _ in 0..count {
        let (element, after) = read_element(alloc, level, rest)?;
        row.add(Shared::new(alloc, element)?)?;
        rest = after;
    }
    Ok((row, rest))
}
