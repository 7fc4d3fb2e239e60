//! Elements of tuples, and integers of types.
use crate::play::number;
use std::alloc::Global;
use type_kinds::{Bytes, Memory};
use type_kinds_sets::{High, IntSet, Low};
use type_lattice::Ty;

/// The element of the tuples of a size at a position. The words are the size and the position; none, where these are no such numbers.
pub fn project(alloc: Global, t: &Ty, words: &str) -> Result<Ty, Memory> {
    let (size, position) = match words.split_once(' ') {
        Some((size, position)) => (number(size), number(position)),
        None => (0, 0),
    };
    if 1 <= position && position <= size {
        t.project(alloc, size, position)
    } else {
        Ok(Ty::none())
    }
}

/// The elements at a position of tuples of any size, or at all positions, where no position is named.
pub fn elements_at(alloc: Global, t: &Ty, position: &str) -> Result<Ty, Memory> {
    let positions = if position.is_empty() {
        IntSet::range(Low::One, High::Max)
    } else {
        IntSet::one(i128::from(number(position)))
    };
    let elements = t.elements_at(alloc, &positions);
    drop(positions);
    elements
}

/// Appends whether an integer is in a type.
pub fn append_has(t: &Ty, digits: &str, out: &mut Bytes) -> Result<(), Memory> {
    let integers = t.integers();
    let has = match digits.parse::<i128>() {
        Ok(n) => integers.contains(n),
        Err(_) => false,
    };
    drop(integers);
    out.append(if has { b"is in it" } else { b"isn't in it" })
}
