//! Which types can be written. Nothing here takes memory.
ghost use Rattle.std.specs.Prelude.{◌≡◌};
ghost use Rattle.std.specs.List.{list_all};
ghost use Rattle.type_lattice_trees.specs.View.{view, row_view, tags_view, body_view, sizes_view, tuples_view, cell_view, parts_view};
ghost use Rattle.type_lattice_trees.specs.View.{Fits, EachNode, EachTag, EachInBody, EachSize, EachInTuples, EachInCell, EachInParts};
ghost use Rattle.type_bytes.specs.ShortNames.{is_short as is_short_name, are_short as are_short_names, is_short_cell as is_short_cell_there};
ghost use Rattle.type_bytes.specs.ShortNames.{is_short_tag as is_short_tag_there, is_short_body as is_short_body_there};
ghost use Rattle.type_bytes.specs.ShortNames.{is_short_size as is_short_size_there, are_short_tuples as are_short_tuples_there};
ghost use Rattle.type_bytes.specs.ShortNames.{are_short_parts as are_short_parts_there, is_short_at, has_short_names as has_short_names_there};

use type_kinds::{Atom, Shared};
use type_kinds_sets::AtomSet;
use type_lattice::Ty;
use type_lattice_trees::{BodyOf, CellOf, Node, PartsOf, SizeOf, TagOf, TuplesOf};

/// Whether each atom in the type has fewer than 2^32 bytes, so that the type can be written: the length
/// of an atom is written in four bytes. Takes no memory.
pub fn has_short_names(t: &Ty) -> bool
    ensures { result ≡ has_short_names_there t.now }
{
    is_short(4, t.node())
}

// The same for the type that a tree stands for.
#[cycle(short)]
fn is_short(level: u32, t: &Node) -> bool
    requires { Fits level t.now }
    ensures { result ≡ is_short_at level (view level t.now) }
{
    match t {
        Node::Any => true,
        Node::Of(parts) => are_short_parts(level - 1, parts),
    }
}

// Here and below the level is that of the elements.
#[cycle(short)]
fn are_short_parts(level: u32, parts: &PartsOf<Node>) -> bool
    requires { EachInParts (Fits level) parts.now }
    ensures { result ≡ are_short_parts_there (is_short_at level) (parts_view level parts.now) }
{
    if !are_short(&parts.plain.atoms) {
        return false;
    }
    if !is_short_cell(level, &parts.cell) {
        return false;
    }
    are_short_tuples(level, &parts.tuples)
}

#[cycle(short)]
fn is_short_cell(level: u32, cell: &Option<CellOf<Node>>) -> bool
    requires { EachInCell (Fits level) cell.now }
    ensures { result ≡ is_short_cell_there (is_short_at level) (cell_view level cell.now) }
{
    match cell {
        None => true,
        Some(cell) => is_short(level, cell.element.get()),
    }
}

#[cycle(short)]
fn are_short_tuples(level: u32, tuples: &TuplesOf<Node>) -> bool
    requires { EachInTuples (Fits level) tuples.now }
    ensures { result ≡ are_short_tuples_there (is_short_at level) (tuples_view level tuples.now) }
{
    match tuples {
        TuplesOf::All => true,
        TuplesOf::Sizes(sizes) => are_short_sizes(level, sizes.as_slice()),
    }
}

#[cycle(short)]
fn are_short_sizes(level: u32, sizes: &[SizeOf<Node>]) -> bool
    requires { EachSize (Fits level) sizes.now }
    ensures { result ≡ list_all (is_short_size_there (is_short_at level)) (sizes_view level sizes.now) }
{
    for size in sizes {
        if !is_short_body(level, &size.body) {
            return false;
        }
    }
    true
}

#[cycle(short)]
fn is_short_body(level: u32, body: &BodyOf<Node>) -> bool
    requires { EachInBody (Fits level) body.now }
    ensures { result ≡ is_short_body_there (is_short_at level) (body_view level body.now) }
{
    match body {
        BodyOf::Product(row) => is_short_row(level, row.as_slice()),
        BodyOf::Tags(tags) => are_short_tags(level, tags.as_slice()),
    }
}

#[cycle(short)]
fn are_short_tags(level: u32, tags: &[TagOf<Node>]) -> bool
    requires { EachTag (Fits level) tags.now }
    ensures { result ≡ list_all (is_short_tag_there (is_short_at level)) (tags_view level tags.now) }
{
    for tag in tags {
        if !is_short_tag(level, tag) {
            return false;
        }
    }
    true
}

#[cycle(short)]
fn is_short_tag(level: u32, tag: &TagOf<Node>) -> bool
    requires { EachNode (Fits level) tag.now.rest }
    ensures { result ≡ is_short_tag_there (is_short_at level) (tag.now.atom, row_view level tag.now.rest) }
{
    if !is_short_atom(tag.atom.get()) {
        return false;
    }
    is_short_row(level, tag.rest.as_slice())
}

#[cycle(short)]
fn is_short_row(level: u32, row: &[Shared<Node>]) -> bool
    requires { EachNode (Fits level) row.now }
    ensures { result ≡ list_all (is_short_at level) (row_view level row.now) }
{
    for element in row {
        if !is_short(level, element.get()) {
            return false;
        }
    }
    true
}

// Whether each atom of a set is short.
fn are_short(atoms: &AtomSet) -> bool
    ensures { result ≡ are_short_names atoms.now }
{
    match atoms.members() {
        None => true,
        Some(members) => all_short(members),
    }
}

fn all_short(atoms: &[Shared<Atom>]) -> bool
    ensures { result ≡ list_all is_short_name atoms.now }
{
    for atom in atoms {
        if !is_short_atom(atom.get()) {
            return false;
        }
    }
    true
}

fn is_short_atom(atom: &Atom) -> bool
    ensures { result ≡ is_short_name atom.now }
{
    atom.bytes().len() < 1 << 32
}
