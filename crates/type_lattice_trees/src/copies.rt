//! Second types of the same values. What lies below their top is shared, so they take no memory;
//! `Memory` comes where a count of owners can rise no further.
ghost use Rattle.std.specs.Prelude.{◌≡◌, IfOk};

use crate::node::{BodyOf, CellOf, Node, PartsOf, SizeOf, TagOf, TuplesOf};
use std::alloc::Global;
use type_kinds::{List, Memory, Shared};

/// A second type of the same values.
pub fn copy(t: &Node) -> Result<Node, Memory>
    ensures { IfOk result (λ n. n ≡ t.now) }
{
    match t {
        Node::Any => Ok(Node::Any),
        Node::Of(parts) => Ok(Node::Of(PartsOf {
            plain: parts.plain.copy()?,
            cell: copy_cell(&parts.cell)?,
            tuples: copy_tuples(&parts.tuples)?,
        })),
    }
}

pub fn copy_cell(cell: &Option<CellOf<Node>>) -> Result<Option<CellOf<Node>>, Memory>
    ensures { IfOk result (λ c. c ≡ cell.now) }
{
    match cell {
        None => Ok(None),
        Some(c) => Ok(Some(CellOf {
            element: c.element.share()?,
            is_proper: c.is_proper,
        })),
    }
}

pub fn copy_tuples(tuples: &TuplesOf<Node>) -> Result<TuplesOf<Node>, Memory>
    ensures { IfOk result (λ copied. copied ≡ tuples.now) }
{
    match tuples {
        TuplesOf::All => Ok(TuplesOf::All),
        TuplesOf::Sizes(sizes) => Ok(TuplesOf::Sizes(sizes.share()?)),
    }
}

pub fn copy_body(body: &BodyOf<Node>) -> Result<BodyOf<Node>, Memory>
    ensures { IfOk result (λ copied. copied ≡ body.now) }
{
    match body {
        BodyOf::Product(row) => Ok(BodyOf::Product(row.share()?)),
        BodyOf::Tags(tags) => Ok(BodyOf::Tags(tags.share()?)),
    }
}

pub fn copy_size(size: &SizeOf<Node>) -> Result<SizeOf<Node>, Memory>
    ensures { IfOk result (λ copied. copied ≡ size.now) }
{
    Ok(SizeOf {
        size: size.size,
        body: copy_body(&size.body)?,
    })
}

pub fn copy_tag(tag: &TagOf<Node>) -> Result<TagOf<Node>, Memory>
    ensures { IfOk result (λ copied. copied ≡ tag.now) }
{
    Ok(TagOf {
        atom: tag.atom.share()?,
        rest: tag.rest.share()?,
    })
}

/// A list of its own of the same types.
pub fn copy_row(alloc: Global, row: &[Shared<Node>]) -> Result<List<Shared<Node>>, Memory>
    ensures { IfOk result (λ list. list ≡ row.now) }
{
    let mut out = List::new(alloc);
    for element in row {
        out.add(element.share()?)?;
    }
    Ok(out)
}

/// A list of its own of the same tags.
pub fn copy_tags(alloc: Global, tags: &[TagOf<Node>]) -> Result<List<TagOf<Node>>, Memory>
    ensures { IfOk result (λ list. list ≡ tags.now) }
{
    let mut out = List::new(alloc);
    for tag in tags {
        out.add(copy_tag(tag)?)?;
    }
    Ok(out)
}

/// A list of its own of the same sizes.
pub fn copy_sizes(alloc: Global, sizes: &[SizeOf<Node>]) -> Result<List<SizeOf<Node>>, Memory>
    ensures { IfOk result (λ list. list ≡ sizes.now) }
{
    let mut out = List::new(alloc);
    for size in sizes {
        out.add(copy_size(size)?)?;
    }
    Ok(out)
}
