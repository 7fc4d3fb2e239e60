//! The types of literals and of functions.
ghost use Rattle.std.specs.Prelude.{◌≡◌, [], ◌∷◌, cond, IfOk};
ghost use Rattle.type_kinds_sets.specs.Numbers.{is_narrow, listed};
ghost use Rattle.type_lattice.specs.Types.{of_ints};
ghost use Rattle.cons_tree.specs.Named.{floats, integers, just_true, naturals};
ghost use Rattle.cons_gen_rows.specs.Words.{function_type, literal_type};

use core_ast::Literal;
use std::alloc::Global;
use type_kinds::{Atom, Memory};
use type_kinds_sets::{AtomSet, High, IntSet, Low};
use type_lattice::{Kind, Ty};

/// The type of the functions of `count` arguments, or of all functions from 2^32 arguments on. Takes no memory.
pub fn function_type(count: usize) -> Ty
    ensures { result ≡ function_type count }
{
    match u32::try_from(count) {
        Ok(arity) => Ty::kind(Kind::FunOf(arity)),
        Err(_) => Ty::kind(Kind::AnyFun),
    }
}

/// The type of a literal. An integer that a set of integers can't hold by itself has the type of all integers, and
/// a float that of all floats. `Memory` if allocation fails.
pub fn literal_type(alloc: Global, literal: &Literal) -> Result<Ty, Memory>
    ensures { IfOk result (λ t. t ≡ literal_type literal.now) }
{
    match literal {
        Literal::Int(n) => Ok(integer_type(*n)),
        Literal::Float(_) => Ok(all_floats()),
        Literal::Atom(name) => Ok(Ty::atoms(AtomSet::one(alloc, name)?)),
        Literal::Nil => Ok(Ty::kind(Kind::Nil)),
    }
}

// The type of one integer, or of all where a set can't hold it. Takes no memory.
#[tactic(auto, unfolding(cons_tree::specs::Named::integers))]
fn integer_type(n: i128) -> Ty
    ensures { result ≡ cond (is_narrow n) (of_ints (listed (n ∷ []))) integers }
{
    if IntSet::can_hold(n) {
        return Ty::ints(IntSet::one(n));
    }
    all_integers()
}

/// The type of all integers. Takes no memory.
#[tactic(auto, unfolding(cons_tree::specs::Named::integers))]
pub fn all_integers() -> Ty
    ensures { result ≡ integers }
{
    Ty::ints(IntSet::range(Low::Min, High::Max))
}

/// The type of all integers from 0 on. Takes no memory.
#[tactic(auto, unfolding(cons_tree::specs::Named::naturals))]
pub fn all_naturals() -> Ty
    ensures { result ≡ naturals }
{
    Ty::ints(IntSet::range(Low::Zero, High::Max))
}

/// The type of all floats. Takes no memory.
#[tactic(auto, unfolding(cons_tree::specs::Named::floats))]
pub fn all_floats() -> Ty
    ensures { result ≡ floats }
{
    Ty::kind(Kind::Float)
}

/// The atom `true`.
#[tactic(auto, unfolding(cons_tree::specs::Named::just_true))]
pub fn true_type(alloc: Global) -> Result<Ty, Memory>
    ensures { IfOk result (λ t. t ≡ just_true) }
{
    let name = Atom::new(alloc, b"true")?;
    Ok(Ty::atoms(AtomSet::one(alloc, &name)?))
}
