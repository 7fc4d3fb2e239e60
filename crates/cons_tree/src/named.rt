//! The types that the table of narrowing names, and those that it makes of the arguments' types.
ghost use Rattle.std.specs.Prelude.{◌≡◌, ◌∷◌, ◌<◌, ◌^◌, [], IfOk, length, not};
ghost use Rattle.type_lattice.specs.Types.{is_none, meet, join, of_atoms};
ghost use Rattle.type_kinds_sets.specs.Names.{listed};
ghost use Rattle.cons_tree.specs.Named.{integers, naturals, floats, just_true, just_false, truths, has_integer, has_float};
ghost use Rattle.cons_tree.specs.Named.{where_so, absolute, positions, selected, tested, tested_some, same_values, other_values};

use crate::signatures::discard;
use std::alloc::Global;
use type_kinds::{Atom, Memory};
use type_kinds_sets::{AtomSet, High, IntSet, Low};
use type_lattice::{Kind, Ty};

// The type of one atom.
fn atom_type(alloc: Global, bytes: &[u8]) -> Result<Ty, Memory>
    requires { length bytes.now < 2 ^ 32 }
    ensures { IfOk result (λ t. t ≡ of_atoms (listed (bytes.now ∷ []))) }
{
    let atom = Atom::new(alloc, bytes)?;
    let set = AtomSet::one(alloc, &atom)?;
    Ok(Ty::atoms(set))
}

/// The type of the atom `true`. `Memory` comes if allocation fails, here and below.
#[tactic(auto, unfolding(crate::specs::Named::just_true))]
pub fn true_type(alloc: Global) -> Result<Ty, Memory>
    ensures { IfOk result (λ t. t ≡ just_true) }
{
    atom_type(alloc, b"true")
}

/// The type of the atom `false`.
#[tactic(auto, unfolding(crate::specs::Named::just_false))]
pub fn false_type(alloc: Global) -> Result<Ty, Memory>
    ensures { IfOk result (λ t. t ≡ just_false) }
{
    atom_type(alloc, b"false")
}

/// The type of both.
#[tactic(auto, unfolding(crate::specs::Named::truths))]
pub fn truth_type(alloc: Global) -> Result<Ty, Memory>
    ensures { IfOk result (λ t. t ≡ truths) }
{
    let no = false_type(alloc)?;
    let yes = true_type(alloc)?;
    no.join(alloc, &yes)
}

/// Whether a type has an integer.
#[tactic(auto, unfolding(crate::specs::Named::has_integer))]
pub fn holds_integer(ty: &Ty) -> bool
    ensures { result ≡ has_integer ty.now }
{
    !ty.integers().is_none()
}

/// Whether a type has a float.
#[tactic(auto, unfolding(crate::specs::Named::has_float, crate::specs::Named::floats))]
pub fn holds_float(alloc: Global, ty: &Ty) -> Result<bool, Memory>
    ensures { IfOk result (λ b. b ≡ has_float ty.now) }
{
    let float = Ty::kind(Kind::Float);
    let met = ty.meet(alloc, &float)?;
    let answer = !met.is_none();
    discard(met);
    discard(float);
    Ok(answer)
}

// The type where the answer is yes, and else none. Takes no memory.
fn kept_where(so: bool, ty: Ty) -> Ty
    ensures { result ≡ where_so so ty }
{
    if so {
        return ty;
    }
    discard(ty);
    Ty::none()
}

/// A type of integers where there are some, joined with the floats where there are some.
#[tactic(auto, unfolding(crate::specs::Named::floats))]
pub fn number_type(
    alloc: Global,
    whole: Ty,
    some_integer: bool,
    some_float: bool,
) -> Result<Ty, Memory>
    ensures { IfOk result (λ t. t ≡ join (where_so some_integer whole) (where_so some_float floats)) }
{
    let left = kept_where(some_integer, whole);
    let right = kept_where(some_float, Ty::kind(Kind::Float));
    left.join(alloc, &right)
}

/// All integers. Takes no memory.
#[tactic(auto, unfolding(crate::specs::Named::integers))]
pub fn integer_type() -> Ty
    ensures { result ≡ integers }
{
    Ty::ints(IntSet::range(Low::Min, High::Max))
}

/// The integers from 0 on. Takes no memory.
#[tactic(auto, unfolding(crate::specs::Named::naturals))]
pub fn natural_type() -> Ty
    ensures { result ≡ naturals }
{
    Ty::ints(IntSet::range(Low::Zero, High::Max))
}

/// What the absolute value of a number of this type is.
#[tactic(auto, unfolding(crate::specs::Named::absolute))]
pub fn absolute_type(alloc: Global, ty: &Ty) -> Result<Ty, Memory>
    ensures { IfOk result (λ t. t ≡ absolute ty.now) }
{
    let some_float = holds_float(alloc, ty)?;
    number_type(alloc, natural_type(), holds_integer(ty), some_float)
}

// The positions that a set of integers says: those of a list, and all where it is an interval.
fn positions_of(set: &IntSet) -> IntSet
    ensures { result ≡ positions set.now }
{
    match set.ends() {
        Some(_) => IntSet::range(Low::Min, High::Max),
        None => set.copy(),
    }
}

/// The elements of the tuples of the second type at the positions that the first one says.
#[tactic(auto, unfolding(crate::specs::Named::selected))]
pub fn selected_type(alloc: Global, position: &Ty, tuples: &Ty) -> Result<Ty, Memory>
    ensures { IfOk result (λ t. t ≡ selected position.now tuples.now) }
{
    let positions = positions_of(&position.integers());
    tuples.elements_at(alloc, &positions)
}

/// Whether two types have a value in common.
pub fn overlap(alloc: Global, one: &Ty, other: &Ty) -> Result<bool, Memory>
    ensures { IfOk result (λ b. b ≡ not (is_none (meet one.now other.now))) }
{
    let met = one.meet(alloc, other)?;
    let answer = !met.is_none();
    discard(met);
    Ok(answer)
}

/// Whether a value of the second type is of the first.
#[tactic(auto, unfolding(crate::specs::Named::tested))]
pub fn tested_type(alloc: Global, tests: &Ty, ty: &Ty) -> Result<Ty, Memory>
    ensures { IfOk result (λ t. t ≡ tested tests.now ty.now) }
{
    if ty.is_none() {
        return Ok(Ty::none());
    }
    if !overlap(alloc, ty, tests)? {
        return false_type(alloc);
    }
    if ty.leq(tests) {
        return true_type(alloc);
    }
    truth_type(alloc)
}

/// No, or yes where a value of the second type may be of the first.
#[tactic(auto, unfolding(crate::specs::Named::tested_some))]
pub fn some_tested_type(alloc: Global, tests: &Ty, ty: &Ty) -> Result<Ty, Memory>
    ensures { IfOk result (λ t. t ≡ tested_some tests.now ty.now) }
{
    if !overlap(alloc, ty, tests)? {
        return false_type(alloc);
    }
    truth_type(alloc)
}

/// Whether values of two types are one.
#[tactic(auto, unfolding(crate::specs::Named::same_values))]
pub fn same_type(alloc: Global, one: &Ty, other: &Ty) -> Result<Ty, Memory>
    ensures { IfOk result (λ t. t ≡ same_values one.now other.now) }
{
    if !overlap(alloc, one, other)? {
        return false_type(alloc);
    }
    truth_type(alloc)
}

/// Whether values of two types are two.
#[tactic(auto, unfolding(crate::specs::Named::other_values))]
pub fn other_type(alloc: Global, one: &Ty, other: &Ty) -> Result<Ty, Memory>
    ensures { IfOk result (λ t. t ≡ other_values one.now other.now) }
{
    if !overlap(alloc, one, other)? {
        return true_type(alloc);
    }
    truth_type(alloc)
}
