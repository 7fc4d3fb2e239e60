//! The types that the table names.
ghost use Rattle.std.specs.Prelude.{◌≡◌, ◌<◌, ◌^◌, ◌∷◌, [], IfOk, IsTrue, length};
ghost use Rattle.type_lattice.specs.Kinds.{asks_proper};
ghost use Rattle.type_lattice.specs.Types.{cons, join, of_atoms, of_ints};
ghost use Rattle.type_kinds_sets.specs.Ends.{is_range};
ghost use Rattle.type_kinds_sets.specs.Names.{listed};
ghost use Rattle.type_kinds_sets.specs.Numbers.{range};
ghost use Rattle.cons_tree.specs.Named.{integers, floats, truths as both_truths};
ghost use Rattle.bif_types.specs.ArgTypes.{type_of, just_nil, characters as all_characters, bytes as all_bytes};

use crate::bif::ArgKind;
use std::alloc::Global;
use type_kinds::{Atom, Memory};
use type_kinds_sets::{AtomSet, High, IntSet, Low};
use type_lattice::{Ends, Kind, Ty};

impl ArgKind {
    /// The type that it names. `Memory` comes if allocation fails.
    #[tactic(auto, unfolding(crate::specs::ArgTypes::type_of, cons_tree::specs::Named::integers, cons_tree::specs::Named::naturals, cons_tree::specs::Named::floats))]
    pub fn named_type(self, alloc: Global) -> Result<Ty, Memory>
        ensures { IfOk result (λ t. t ≡ type_of self) }
    {
        match self {
            ArgKind::Any => Ok(Ty::any()),
            ArgKind::Number => numbers(alloc),
            ArgKind::Integer => Ok(between(Low::Min, High::Max)),
            ArgKind::Natural => Ok(between(Low::Zero, High::Max)),
            ArgKind::Positive => Ok(between(Low::One, High::Max)),
            ArgKind::Boolean => truths(alloc),
            ArgKind::ProperList => lists(alloc, &Ty::any(), Ends::Proper),
            ArgKind::FreeList => lists(alloc, &Ty::any(), Ends::Free),
            ArgKind::CharList => lists(alloc, &characters(), Ends::Proper),
            ArgKind::FreeCons => conses(alloc, &Ty::any(), Ends::Free),
            ArgKind::CharCons => conses(alloc, &characters(), Ends::Proper),
            ArgKind::ByteCons => conses(alloc, &bytes(), Ends::Proper),
            ArgKind::AnyTuple => Ok(Ty::kind(Kind::AnyTuple)),
            ArgKind::AnyFun => Ok(Ty::kind(Kind::AnyFun)),
            ArgKind::AnyAtom => Ok(Ty::atoms(AtomSet::all())),
            ArgKind::Float => Ok(Ty::kind(Kind::Float)),
            ArgKind::Binary => Ok(Ty::kind(Kind::Binary)),
            ArgKind::Bitstring => Ok(Ty::kind(Kind::Bitstring)),
            ArgKind::Pid => Ok(Ty::kind(Kind::Pid)),
            ArgKind::Port => Ok(Ty::kind(Kind::Port)),
            ArgKind::Reference => Ok(Ty::kind(Kind::Reference)),
            ArgKind::Map => Ok(Ty::kind(Kind::Map)),
        }
    }
}

// The integers from one end to the other. Takes no memory.
fn between(low: Low, high: High) -> Ty
    requires { IsTrue (is_range low high) }
    ensures { result ≡ of_ints (range low high) }
{
    Ty::ints(IntSet::range(low, high))
}

// The characters of Unicode. Takes no memory.
fn characters() -> Ty
    ensures { result ≡ all_characters }
{
    between(Low::Zero, High::Unicode)
}

// The integers of a byte. Takes no memory.
fn bytes() -> Ty
    ensures { result ≡ all_bytes }
{
    between(Low::Zero, High::Byte)
}

// Integers and floats.
#[tactic(auto, unfolding(cons_tree::specs::Named::integers, cons_tree::specs::Named::floats))]
fn numbers(alloc: Global) -> Result<Ty, Memory>
    ensures { IfOk result (λ t. t ≡ join integers floats) }
{
    between(Low::Min, High::Max).join(alloc, &Ty::kind(Kind::Float))
}

// The type of one atom.
fn atom_type(alloc: Global, bytes: &[u8]) -> Result<Ty, Memory>
    requires { length bytes.now < 2 ^ 32 }
    ensures { IfOk result (λ t. t ≡ of_atoms (listed (bytes.now ∷ []))) }
{
    let atom = Atom::new(alloc, bytes)?;
    let set = AtomSet::one(alloc, &atom)?;
    Ok(Ty::atoms(set))
}

// The atoms `false` and `true`.
#[tactic(auto, unfolding(cons_tree::specs::Named::truths, cons_tree::specs::Named::just_true, cons_tree::specs::Named::just_false))]
fn truths(alloc: Global) -> Result<Ty, Memory>
    ensures { IfOk result (λ t. t ≡ both_truths) }
{
    let no = atom_type(alloc, b"false")?;
    let yes = atom_type(alloc, b"true")?;
    no.join(alloc, &yes)
}

// The lists of at least one element of a type.
fn conses(alloc: Global, element: &Ty, ends: Ends) -> Result<Ty, Memory>
    ensures { IfOk result (λ t. t ≡ cons element.now just_nil (asks_proper ends)) }
{
    Ty::cons(alloc, element, &Ty::kind(Kind::Nil), ends)
}

// Nil, and the lists of at least one element of a type.
fn lists(alloc: Global, element: &Ty, ends: Ends) -> Result<Ty, Memory>
    ensures { IfOk result (λ t. t ≡ join just_nil (cons element.now just_nil (asks_proper ends))) }
{
    let some = conses(alloc, element, ends)?;
    Ty::kind(Kind::Nil).join(alloc, &some)
}
