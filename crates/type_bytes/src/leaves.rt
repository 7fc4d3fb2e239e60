// What bytes begin with that holds no types: numbers, atoms and sets. Each reader gives what it read and
// what stands behind it, or `NotCanonical` where the bytes begin with no spelling of such a thing.
ghost use Rattle.std.specs.Prelude.{◌≡◌, ◌≤◌};
ghost use Rattle.type_kinds_sets.specs.Names as names;
ghost use Rattle.type_kinds_sets.specs.Numbers as numbers;
ghost use Rattle.type_kinds_sets.specs.declared.bits.Bits.TheVariants.{No};
ghost use Rattle.type_lattice_model.specs.Shapes.{no_function};
ghost use Rattle.type_lattice_trees.specs.Plains.{functions_of};
ghost use Rattle.type_bytes.specs.steps.Reading.{Reads, many, where_set, number_at, name_at, int_at, names_at, atoms_at};
ghost use Rattle.type_bytes.specs.steps.Reading.{low_at, high_at, interval_at, numbers_at, ints_at, bits_at, functions_at};

use crate::faults::BytesFault;
use std::alloc::Global;
use type_kinds::{Atom, List, Shared};
use type_kinds_sets::{AtomSet, Bits, High, IntSet, Low};
use type_lattice_trees::FunSet;

// A number of four bytes.
#[tactic(auto, unfolding(crate::specs::steps::Reading::number_at))]
fn read_number(bytes: &[u8]) -> Result<(u32, &[u8]), BytesFault>
    ensures { Reads (λ p. (p.0, p.1.now)) result (number_at bytes.now) }
{
    if bytes.len() < 4 {
        return Err(BytesFault::NotCanonical);
    }
    let (front, rest) = bytes.split_at(4);
    let number = u32::from_be_bytes([front[0], front[1], front[2], front[3]]);
    Ok((number, rest))
}

/// An atom. Its length is checked before memory is taken.
#[tactic(auto, unfolding(crate::specs::steps::Reading::name_at))]
pub fn read_name(alloc: Global, bytes: &[u8]) -> Result<(Shared<Atom>, &[u8]), BytesFault>
    ensures { Reads (λ p. (p.0, p.1.now)) result (name_at bytes.now) }
{
    let (len, rest) = read_number(bytes)?;
    let len = len as usize;
    if rest.len() < len {
        return Err(BytesFault::NotCanonical);
    }
    let (name, rest) = rest.split_at(len);
    let atom = Atom::new(alloc, name)?;
    Ok((Shared::new(alloc, atom)?, rest))
}

/// A set of atoms, where there are some, and else none.
#[tactic(auto, unfolding(crate::specs::steps::Reading::atoms_at))]
pub fn read_atoms(alloc: Global, some: bool, bytes: &[u8]) -> Result<(AtomSet, &[u8]), BytesFault>
    ensures { Reads (λ p. (p.0, p.1.now)) result (where_set some names.none atoms_at bytes.now) }
{
    if !some {
        return Ok((AtomSet::none(), bytes));
    }
    let Some((first, rest)) = bytes.split_first() else {
        return Err(BytesFault::NotCanonical);
    };
    if *first == 0 {
        return Ok((AtomSet::all(), rest));
    }
    if *first > 13 {
        return Err(BytesFault::NotCanonical);
    }
    read_names(alloc, *first, rest)
}

// The set of `count` atoms, which ascend.
#[tactic(auto, unfolding(crate::specs::steps::Reading::names_at))]
fn read_names(alloc: Global, count: u8, bytes: &[u8]) -> Result<(AtomSet, &[u8]), BytesFault>
    ensures { Reads (λ p. (p.0, p.1.now)) result (names_at count bytes.now) }
{
    let (atoms, rest) = list_names(alloc, count, bytes)?;
    if !AtomSet::can_list(atoms.as_slice()) {
        discard_atoms(atoms);
        return Err(BytesFault::NotCanonical);
    }
    Ok((AtomSet::listed(alloc, atoms)?, rest))
}

fn discard_atoms(_atoms: List<Shared<Atom>>) {}

// `count` atoms.
fn list_names(
    alloc: Global,
    count: u8,
    bytes: &[u8],
) -> Result<(List<Shared<Atom>>, &[u8]), BytesFault>
    ensures { Reads (λ p. (p.0, p.1.now)) result (many count name_at bytes.now) }
{
    let mut atoms = List::new(alloc);
    let mut rest = bytes;
    for _ in 0..count {
        let (atom, after) = read_name(alloc, rest)?;
        atoms.add(atom)?;
        rest = after;
    }
    Ok((atoms, rest))
}

/// A set of integers, where there are some, and else none.
#[tactic(auto, unfolding(crate::specs::steps::Reading::ints_at))]
pub fn read_ints(alloc: Global, some: bool, bytes: &[u8]) -> Result<(IntSet, &[u8]), BytesFault>
    ensures { Reads (λ p. (p.0, p.1.now)) result (where_set some numbers.none ints_at bytes.now) }
{
    if !some {
        return Ok((IntSet::none(), bytes));
    }
    let Some((first, rest)) = bytes.split_first() else {
        return Err(BytesFault::NotCanonical);
    };
    if *first >= 128 {
        return read_interval(*first - 128, rest);
    }
    if *first == 0 || *first > 13 {
        return Err(BytesFault::NotCanonical);
    }
    read_numbers(alloc, *first, rest)
}

// The interval of a number.
#[tactic(auto, unfolding(crate::specs::steps::Reading::interval_at))]
fn read_interval(number: u8, bytes: &[u8]) -> Result<(IntSet, &[u8]), BytesFault>
    ensures { Reads (λ p. (p.0, p.1.now)) result (interval_at number bytes.now) }
{
    let low = read_low(number / 4)?;
    let high = read_high(number % 4)?;
    if !IntSet::is_range(low, high) {
        return Err(BytesFault::NotCanonical);
    }
    Ok((IntSet::range(low, high), bytes))
}

// The lower end of a number.
#[tactic(auto, unfolding(crate::specs::steps::Reading::low_at))]
fn read_low(number: u8) -> Result<Low, BytesFault>
    ensures { Reads (λ l. l) result (low_at number) }
{
    match number {
        0 => Ok(Low::Min),
        1 => Ok(Low::Zero),
        2 => Ok(Low::One),
        _ => Err(BytesFault::NotCanonical),
    }
}

// The upper end of a number.
#[tactic(auto, unfolding(crate::specs::steps::Reading::high_at))]
fn read_high(number: u8) -> Result<High, BytesFault>
    ensures { Reads (λ h. h) result (high_at number) }
{
    match number {
        0 => Ok(High::MinusOne),
        1 => Ok(High::Byte),
        2 => Ok(High::Unicode),
        3 => Ok(High::Max),
        _ => Err(BytesFault::NotCanonical),
    }
}

// The set of `count` integers, which ascend and are of magnitude below 2^127.
#[tactic(auto, unfolding(crate::specs::steps::Reading::numbers_at))]
fn read_numbers(alloc: Global, count: u8, bytes: &[u8]) -> Result<(IntSet, &[u8]), BytesFault>
    ensures { Reads (λ p. (p.0, p.1.now)) result (numbers_at count bytes.now) }
{
    let (ints, rest) = list_numbers(alloc, count, bytes)?;
    if !IntSet::can_list(ints.as_slice()) {
        return Err(BytesFault::NotCanonical);
    }
    Ok((IntSet::listed(ints.as_slice()), rest))
}

// `count` integers.
fn list_numbers(alloc: Global, count: u8, bytes: &[u8]) -> Result<(List<i128>, &[u8]), BytesFault>
    ensures { Reads (λ p. (p.0, p.1.now)) result (many count int_at bytes.now) }
{
    let mut ints = List::new(alloc);
    let mut rest = bytes;
    for _ in 0..count {
        let (n, after) = read_int(rest)?;
        ints.add(n)?;
        rest = after;
    }
    Ok((ints, rest))
}

// One integer, of sixteen bytes.
#[tactic(auto, unfolding(crate::specs::steps::Reading::int_at))]
fn read_int(bytes: &[u8]) -> Result<(i128, &[u8]), BytesFault>
    ensures { Reads (λ p. (p.0, p.1.now)) result (int_at bytes.now) }
{
    if bytes.len() < 16 {
        return Err(BytesFault::NotCanonical);
    }
    let (f, rest) = bytes.split_at(16);
    let number = u128::from_be_bytes([
        f[0], f[1], f[2], f[3], f[4], f[5], f[6], f[7], f[8], f[9], f[10], f[11], f[12], f[13],
        f[14], f[15],
    ]);
    Ok((number.cast_signed(), rest))
}

/// Bit strings, where there are some.
#[tactic(auto, unfolding(crate::specs::steps::Reading::bits_at))]
pub fn read_bits(some: bool, bytes: &[u8]) -> Result<(Bits, &[u8]), BytesFault>
    ensures { Reads (λ p. (p.0, p.1.now)) result (where_set some No bits_at bytes.now) }
{
    if !some {
        return Ok((Bits::No, bytes));
    }
    let Some((first, rest)) = bytes.split_first() else {
        return Err(BytesFault::NotCanonical);
    };
    if *first == 1 {
        return Ok((Bits::Whole, rest));
    }
    if *first == 2 {
        return Ok((Bits::Any, rest));
    }
    Err(BytesFault::NotCanonical)
}

/// Functions, where there are some.
#[tactic(auto, unfolding(crate::specs::steps::Reading::functions_at))]
pub fn read_functions(some: bool, bytes: &[u8]) -> Result<(FunSet, &[u8]), BytesFault>
    ensures { Reads (λ p. (functions_of p.0, p.1.now)) result (where_set some no_function functions_at bytes.now) }
{
    if !some {
        return Ok((FunSet::Nothing, bytes));
    }
    let Some((first, rest)) = bytes.split_first() else {
        return Err(BytesFault::NotCanonical);
    };
    if *first == 0 {
        return Ok((FunSet::Every, rest));
    }
    if *first != 1 {
        return Err(BytesFault::NotCanonical);
    }
    let (arity, rest) = read_number(rest)?;
    Ok((FunSet::OfArity(arity), rest))
}
