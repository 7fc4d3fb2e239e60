//! The least type of a level that contains a type.
ghost use Rattle.std.specs.Prelude.{◌≡◌, ◌⊎◌, ℕ, false, ◌≤◌, replicate, IfOk};
ghost use Rattle.type_lattice_model.specs.Cut.{row_lower, cell_lower, body_lower, tuples_lower, parts_lower};
ghost use Rattle.type_lattice_model.specs.Cut as levels;
ghost use Rattle.type_lattice_model.specs.Operations.{ops};
ghost use Rattle.type_lattice_model.specs.Tables.{mapped};
ghost use Rattle.type_lattice_trees.specs.declared.node.Node.TheVariants.{Any};
ghost use Rattle.type_lattice_trees.specs.View.{view, Fits, row_view, tags_view, body_view, sizes_view, tuples_view, cell_view};
ghost use Rattle.type_lattice_trees.specs.View.{parts_view, EachNode, EachTag, EachInBody, EachSize, EachInTuples};
ghost use Rattle.type_lattice_trees.specs.View.{EachInCell, RowFits, TagsFit, BodyFits, SizesFit, TuplesFit, CellFits, PartsFit};

use crate::copies::copy;
use crate::low::is_low;
use crate::node::{BodyOf, CellOf, Node, PartsOf, SizeOf, TagOf, TuplesOf, made};
use std::alloc::Global;
use type_kinds::{List, Memory, Shared};
use type_kinds_sets::SharedList;

/// The least type of level `to` that has the values of a type of level `from`: the type itself, which is shared then, where it is low
/// enough. For level 0 the type has to have a value.
pub fn cut(alloc: Global, from: u32, to: u32, t: &Node) -> Result<Node, Memory>
    requires fits { Fits from t.now }
    requires filled { (1 ≤ to) ⊎ ((ops from).is_none (view from t.now) ≡ false) }
    ensures fits { IfOk result (λ c. Fits to c) }
    ensures value { IfOk result (λ c. view to c ≡ levels.cut from to (view from t.now)) }
{
    if is_low(to, t) {
        return copy(t);
    }
    cut_high(alloc, from, to, t)
}

// The same of a type that is made anew.
#[cycle(cuts)]
#[tactic(auto, using(crate::proofs::Views::any_fits, crate::proofs::Views::of_above, crate::proofs::CutTrees::any_cut, crate::proofs::CutTrees::zero_cut, crate::proofs::CutTrees::of_cut))]
fn cut_high(alloc: Global, from: u32, to: u32, t: &Node) -> Result<Node, Memory>
    requires fits { Fits from t.now }
    requires filled { (1 ≤ to) ⊎ ((ops from).is_none (view from t.now) ≡ false) }
    ensures fits { IfOk result (λ c. Fits to c) }
    ensures value { IfOk result (λ c. view to c ≡ levels.cut from to (view from t.now)) }
{
    if to == 0 {
        return Ok(Node::Any);
    }
    match t {
        Node::Any => Ok(Node::Any),
        Node::Of(parts) => Ok(made(cut_parts(alloc, from - 1, to - 1, parts)?)),
    }
}

// The levels below are those of the elements.
#[cycle(cuts)]
fn cut_parts(
    alloc: Global,
    from: u32,
    to: u32,
    parts: &PartsOf<Node>,
) -> Result<PartsOf<Node>, Memory>
    requires { PartsFit from parts.now }
    ensures fits { IfOk result (λ c. PartsFit to c) }
    ensures value { IfOk result (λ c. parts_view to c ≡ parts_lower (levels.cut from to) (ops from) (ops to) (parts_view from parts.now)) }
{
    let cell = cut_cell(alloc, from, to, &parts.cell)?;
    let tuples = cut_tuples(alloc, from, to, &parts.tuples)?;
    let plain = parts.plain.copy()?;
    Ok(PartsOf {
        plain,
        cell,
        tuples,
    })
}

#[cycle(cuts)]
fn cut_cell(
    alloc: Global,
    from: u32,
    to: u32,
    cell: &Option<CellOf<Node>>,
) -> Result<Option<CellOf<Node>>, Memory>
    requires { CellFits from cell.now }
    ensures value { IfOk result (λ c. cell_view to c ≡ cell_lower (levels.cut from to) (ops from) (ops to) (cell_view from cell.now)) }
    ensures each { IfOk result (λ c. EachInCell (Fits to) c) }
{
    match cell {
        None => Ok(None),
        Some(c) => {
            Ok(Some(CellOf {
                element: cut_element(alloc, from, to, &c.element)?,
                is_proper: c.is_proper,
            }))
        }
    }
}

// The same of an element: one that is low enough is shared.
#[cycle(cuts)]
fn cut_element(alloc: Global, from: u32, to: u32, t: &Shared<Node>) -> Result<Shared<Node>, Memory>
    requires fits { Fits from t.now }
    requires filled { (1 ≤ to) ⊎ ((ops from).is_none (view from t.now) ≡ false) }
    ensures fits { IfOk result (λ c. Fits to c) }
    ensures value { IfOk result (λ c. view to c ≡ levels.cut from to (view from t.now)) }
{
    if is_low(to, t.get()) {
        return t.share();
    }
    Shared::new(alloc, cut_high(alloc, from, to, t.get())?)
}

// As many elements, each of them every value, which is shared.
fn every_value(alloc: Global, len: usize) -> Result<SharedList<Shared<Node>>, Memory>
    ensures { IfOk result (λ row. row ≡ replicate len Any) }
{
    let every = Shared::new(alloc, Node::Any)?;
    let mut out = List::new(alloc);
    for _ in 0..len {
        out.add(every.share()?)?;
    }
    SharedList::new(alloc, out)
}

// At level 0 each element is every value, whatever it was.
#[cycle(cuts)]
#[tactic(auto, using(crate::proofs::CutTrees::every_row, crate::proofs::CutTrees::every_fits))]
fn cut_row(
    alloc: Global,
    from: u32,
    to: u32,
    row: &[Shared<Node>],
) -> Result<SharedList<Shared<Node>>, Memory>
    requires { (n : ℕ) × RowFits from n row.now }
    ensures value { IfOk result (λ c. row_view to c ≡ row_lower (levels.cut from to) (ops from) (ops to) (row_view from row.now)) }
    ensures each { IfOk result (λ c. EachNode (Fits to) c) }
{
    if to == 0 {
        return every_value(alloc, row.len());
    }
    let mut out = List::new(alloc);
    for element in row {
        let cut = cut_element(alloc, from, to, element)?;
        out.add(cut)?;
    }
    SharedList::new(alloc, out)
}

#[cycle(cuts)]
fn cut_tags(
    alloc: Global,
    from: u32,
    to: u32,
    tags: &[TagOf<Node>],
) -> Result<List<TagOf<Node>>, Memory>
    requires { (n : ℕ) × TagsFit from n tags.now }
    ensures value { IfOk result (λ c. tags_view to c ≡ mapped (row_lower (levels.cut from to) (ops from) (ops to)) (tags_view from tags.now)) }
    ensures each { IfOk result (λ c. EachTag (Fits to) c) }
{
    let mut out = List::new(alloc);
    for tag in tags {
        let rest = cut_row(alloc, from, to, tag.rest.as_slice())?;
        let atom = tag.atom.share()?;
        out.add(TagOf { atom, rest })?;
    }
    Ok(out)
}

// Tags become a product where there can be none.
#[cycle(cuts)]
#[tactic(auto, using(crate::proofs::CutTrees::tags_kept, crate::proofs::CutTrees::tags_filled_there, crate::proofs::CutTrees::every_fits))]
fn cut_body(alloc: Global, from: u32, to: u32, body: &BodyOf<Node>) -> Result<BodyOf<Node>, Memory>
    requires { (n : ℕ) × BodyFits from n body.now }
    ensures value { IfOk result (λ c. body_view to c ≡ body_lower (levels.cut from to) (ops from) (ops to) (body_view from body.now)) }
    ensures each { IfOk result (λ c. EachInBody (Fits to) c) }
{
    match body {
        BodyOf::Product(row) => Ok(BodyOf::Product(cut_row(alloc, from, to, row.as_slice())?)),
        BodyOf::Tags(tags) => {
            if to > 0 {
                let tags = cut_tags(alloc, from, to, tags.as_slice())?;
                return Ok(BodyOf::Tags(SharedList::new(alloc, tags)?));
            }
            let rest = tags.as_slice()[0].rest.as_slice();
            Ok(BodyOf::Product(every_value(alloc, rest.len() + 1)?))
        }
    }
}

#[cycle(cuts)]
#[tactic(auto, using(crate::proofs::CutTrees::body_fits))]
fn cut_sizes(
    alloc: Global,
    from: u32,
    to: u32,
    sizes: &[SizeOf<Node>],
) -> Result<List<SizeOf<Node>>, Memory>
    requires { SizesFit from sizes.now }
    ensures value { IfOk result (λ c. sizes_view to c ≡ mapped (body_lower (levels.cut from to) (ops from) (ops to)) (sizes_view from sizes.now)) }
    ensures each { IfOk result (λ c. EachSize (Fits to) c) }
{
    let mut out = List::new(alloc);
    for size in sizes {
        let body = cut_body(alloc, from, to, &size.body)?;
        out.add(SizeOf {
            size: size.size,
            body,
        })?;
    }
    Ok(out)
}

#[cycle(cuts)]
fn cut_tuples(
    alloc: Global,
    from: u32,
    to: u32,
    tuples: &TuplesOf<Node>,
) -> Result<TuplesOf<Node>, Memory>
    requires { TuplesFit from tuples.now }
    ensures value { IfOk result (λ c. tuples_view to c ≡ tuples_lower (levels.cut from to) (ops from) (ops to) (tuples_view from tuples.now)) }
    ensures each { IfOk result (λ c. EachInTuples (Fits to) c) }
{
    match tuples {
        TuplesOf::All => Ok(TuplesOf::All),
        TuplesOf::Sizes(sizes) => {
            let cut = cut_sizes(alloc, from, to, sizes.as_slice())?;
            Ok(TuplesOf::Sizes(SharedList::new(alloc, cut)?))
        }
    }
}
