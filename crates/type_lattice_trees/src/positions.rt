//! Where an entry goes among others in ascending order.
ghost use Rattle.std.specs.List.{insert};
ghost use Rattle.std.specs.Prelude.{◌≡◌, ◌≤◌, ◌<◌, ℕ, length, IfOk, IfErr};
ghost use Rattle.std.specs.Ordering.{nat_cmp};
ghost use Rattle.type_kinds_sets.specs.Names.{name_cmp};
ghost use Rattle.type_lattice_trees.specs.Positions.{StandsAt, GoesAt};
ghost use Rattle.type_lattice_trees.specs.View.{tags_view, sizes_view};

use crate::node::{Node, SizeOf, TagOf};
use std::cmp::Ordering;
use type_kinds::{Atom, Memory, Shared};

/// Where the tag with this atom is, or, as an error, where one would go.
#[tactic(auto, using(crate::proofs::PositionLaws::positions, crate::proofs::PositionLaws::compared))]
pub fn position_of_tag(tags: &[TagOf<Node>], atom: &Shared<Atom>) -> Result<usize, usize>
    ensures found_within { IfOk result (λ at. at < length tags.now) }
    ensures found { IfOk result (λ at. (d : ℕ) → StandsAt name_cmp atom.now (tags_view d tags.now) at) }
    ensures missing_within { IfErr result (λ at. at ≤ length tags.now) }
    ensures missing { IfErr result (λ at. (d : ℕ) → GoesAt name_cmp atom.now (tags_view d tags.now) at) }
{
    for (at, tag) in tags.iter().enumerate() {
        match atom.get().bytes().cmp(tag.atom.get().bytes()) {
            Ordering::Less => return Err(at),
            Ordering::Equal => return Ok(at),
            Ordering::Greater => {}
        }
    }
    Err(tags.len())
}

/// Where the size is, or, as an error, where it would go.
#[tactic(auto, using(crate::proofs::PositionLaws::positions))]
pub fn position_of_size(sizes: &[SizeOf<Node>], size: u8) -> Result<usize, usize>
    ensures found_within { IfOk result (λ at. at < length sizes.now) }
    ensures found { IfOk result (λ at. (d : ℕ) → StandsAt nat_cmp size (sizes_view d sizes.now) at) }
    ensures missing_within { IfErr result (λ at. at ≤ length sizes.now) }
    ensures missing { IfErr result (λ at. (d : ℕ) → GoesAt nat_cmp size (sizes_view d sizes.now) at) }
{
    for (at, other) in sizes.iter().enumerate() {
        match size.cmp(&other.size) {
            Ordering::Less => return Err(at),
            Ordering::Equal => return Ok(at),
            Ordering::Greater => {}
        }
    }
    Err(sizes.len())
}

/// Puts a tag at a position.
pub fn insert_tag(tags: &mut Vec<TagOf<Node>>, at: usize, tag: TagOf<Node>) -> Result<(), Memory>
    requires { at ≤ length tags.old.items }
    ensures { IfOk result (λ _. tags.new.items ≡ insert tags.old.items at tag) }
{
    match tags.insert(at, tag) {
        Ok(()) => Ok(()),
        Err(_) => Err(Memory),
    }
}

/// Puts a size at a position.
pub fn insert_size(
    sizes: &mut Vec<SizeOf<Node>>,
    at: usize,
    size: SizeOf<Node>,
) -> Result<(), Memory>
    requires { at ≤ length sizes.old.items }
    ensures { IfOk result (λ _. sizes.new.items ≡ insert sizes.old.items at size) }
{
    match sizes.insert(at, size) {
        Ok(()) => Ok(()),
        Err(_) => Err(Memory),
    }
}
