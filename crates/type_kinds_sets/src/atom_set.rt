ghost use Rattle.std.specs.Prelude.{◌≡◌, ◌↔◌, ◌&&◌, ◌<◌, ◌≤◌, [], ◌∷◌, ◌++◌, IsTrue};
ghost use Rattle.std.specs.Prelude.{IfOk, OnOk, IfSome, IfNone, length, filter};
ghost use Rattle.std.specs.List.{list_all, insert};
ghost use Rattle.std.specs.Option.{option_copied};
ghost use Rattle.std.specs.Ordering.{is_lt};
ghost use Rattle.type_kinds_sets.specs.Ascending.{is_ascending, has_item, placed, merged};
ghost use Rattle.type_kinds_sets.specs.Names.{Name, Names, every, name_cmp, are_listed, has, Below, none, or_else, listed, meet, join, is_none, members_of};

use crate::limits::MAX_MEMBERS;
use crate::shared_list::SharedList;
use std::alloc::Global;
use std::cmp::Ordering;
use std::marker::Model;
use type_kinds::{Atom, List, Memory, Shared};

// Atoms in strictly ascending order, or all.
#[derive(Drop)]
enum Kind {
    Listed(SharedList<Shared<Atom>>),
    Every,
}

/// A set of atoms: at most `MAX_MEMBERS`, or all. The list is shared, and so is each atom of it.
#[derive(Drop)]
pub struct AtomSet {
    kind: Kind,
}

impl Model for AtomSet {
    ghost use Rattle.type_kinds_sets.specs.Names.{Names, names_code};
    ghost use Rattle.type_kinds_sets.specs.steps.AtomKinds.{names_of, IsKept};

    ghost Value = { Names };

    ghost coded = { names_code };

    ghost view = { λ set. names_of set.kind };

    ghost invariant = { λ set. IsKept set.kind };
}

impl AtomSet {
    /// No atom. Takes no memory.
    #[tactic(auto, using(crate::proofs::AtomKinds::kinds))]
    pub fn none() -> AtomSet
        ensures { result ≡ none }
    {
        AtomSet {
            kind: Kind::Listed(SharedList::empty()),
        }
    }

    /// All atoms. Takes no memory.
    pub fn all() -> AtomSet
        ensures { result ≡ every }
    {
        AtomSet { kind: Kind::Every }
    }

    /// The set of one atom.
    pub fn one(alloc: Global, atom: &Atom) -> Result<AtomSet, Memory>
        ensures value { IfOk result (λ set. set ≡ listed (atom.now ∷ [])) }
        ensures only { IfOk result (λ set. (q : Name) → IsTrue (has set q) ↔ (q ≡ atom.now)) }
    {
        let mut atoms = List::new(alloc);
        atoms.add(Shared::new(alloc, atom.copy(alloc)?)?)?;
        AtomSet::listed(alloc, atoms)
    }

    /// A second set of the same atoms, which are shared. `Memory` where the count of owners can rise
    /// no further.
    pub fn copy(&self) -> Result<AtomSet, Memory>
        ensures { IfOk result (λ set. set ≡ self.now) }
    {
        match &self.kind {
            Kind::Listed(atoms) => Ok(AtomSet {
                kind: Kind::Listed(atoms.share()?),
            }),
            Kind::Every => Ok(AtomSet::all()),
        }
    }

    /// Whether the atom is in the set. Takes no memory.
    pub fn contains(&self, atom: &Atom) -> bool
        ensures { result ≡ has self.now atom.now }
    {
        match self.members() {
            Some(atoms) => holds(atoms, atom),
            None => true,
        }
    }

    /// Whether no atom is in the set. Takes no memory.
    #[tactic(auto, using(crate::proofs::AtomKinds::kinds))]
    pub fn is_none(&self) -> bool
        ensures value { result ≡ is_none self.now }
        ensures empty { IsTrue result ↔ (self.now ≡ none) }
    {
        match self.members() {
            Some(atoms) => atoms.is_empty(),
            None => false,
        }
    }

    /// The atoms in ascending order, or `None` for all. Takes no memory.
    #[tactic(auto, using(crate::proofs::AtomKinds::kinds))]
    pub fn members(&self) -> Option<&[Shared<Atom>]>
        ensures value { option_copied result ≡ members_of self.now }
        ensures some { IfSome result (λ xs. IsTrue (are_listed xs.now) × (self.now ≡ listed xs.now)) }
    {
        match &self.kind {
            Kind::Listed(atoms) => Some(atoms.as_slice()),
            Kind::Every => None,
        }
    }

    /// Whether each atom of this set is in the other. Takes no memory.
    #[tactic(auto, using(crate::proofs::AtomKinds::parts))]
    pub fn leq(&self, other: &AtomSet) -> bool
        ensures { IsTrue result ↔ Below self.now other.now }
    {
        match self.members() {
            Some(atoms) => all_in(atoms, other),
            None => other.members().is_none(),
        }
    }

    /// The atoms of both sets. Where one is part of the other it is shared.
    pub fn meet(&self, alloc: Global, other: &AtomSet) -> Result<AtomSet, Memory>
        ensures value { IfOk result (λ set. set ≡ meet self.now other.now) }
        ensures both { IfOk result (λ set. (q : Name) → has set q ≡ (has self.now q && has other.now q)) }
    {
        if self.leq(other) {
            return self.copy();
        }
        if other.leq(self) {
            return other.copy();
        }
        match self.members() {
            Some(atoms) => kept(alloc, atoms, other),
            None => other.copy(),
        }
    }

    /// The smallest set of this kind that contains both: their atoms alone where there are at most
    /// `MAX_MEMBERS`, and else all. Where one is part of the other, the other is shared.
    pub fn join(&self, alloc: Global, other: &AtomSet) -> Result<AtomSet, Memory>
        ensures value { IfOk result (λ set. set ≡ join self.now other.now) }
        ensures left { IfOk result (λ set. Below self.now set) }
        ensures right { IfOk result (λ set. Below other.now set) }
        ensures least { IfOk result (λ set. (u : Names) → Below self.now u → Below other.now u → Below set u) }
    {
        if self.leq(other) {
            return other.copy();
        }
        if other.leq(self) {
            return self.copy();
        }
        let Some(atoms) = self.members() else {
            return Ok(AtomSet::all());
        };
        match other.members() {
            Some(others) => both(alloc, atoms, others),
            None => Ok(AtomSet::all()),
        }
    }

    /// Whether a set can list the atoms: they ascend strictly, and are at most
    /// `MAX_MEMBERS`.
    pub fn can_list(atoms: &[Shared<Atom>]) -> bool
        ensures { result ≡ are_listed atoms.now }
    {
        if atoms.len() > MAX_MEMBERS {
            return false;
        }
        ascend(atoms)
    }

    /// The set of the atoms, which a set has to be able to list.
    #[tactic(auto, using(crate::proofs::AtomKinds::kinds))]
    pub fn listed(alloc: Global, atoms: List<Shared<Atom>>) -> Result<AtomSet, Memory>
        requires { IsTrue (are_listed atoms) }
        ensures value { IfOk result (λ set. set ≡ listed atoms) }
        ensures only { IfOk result (λ set. (q : Name) → has set q ≡ has_item name_cmp atoms q) }
    {
        Ok(AtomSet {
            kind: Kind::Listed(SharedList::new(alloc, atoms)?),
        })
    }
}

// Whether the atom is in the list.
#[tactic(auto, using(crate::proofs::AtomKinds::finds))]
fn holds(atoms: &[Shared<Atom>], atom: &Atom) -> bool
    ensures { result ≡ has_item name_cmp atoms.now atom.now }
{
    for other in atoms {
        if atom.is(other.get()) {
            return true;
        }
    }
    false
}

// Whether each atom is below the next.
fn ascend(atoms: &[Shared<Atom>]) -> bool
    ensures { result ≡ is_ascending name_cmp atoms.now }
{
    for at in 1..atoms.len() {
        if atoms[at - 1].get() >= atoms[at].get() {
            return false;
        }
    }
    true
}

// Whether each atom of the list is in the set.
fn all_in(atoms: &[Shared<Atom>], set: &AtomSet) -> bool
    ensures { result ≡ list_all (has set.now) atoms.now }
{
    for atom in atoms {
        if !set.contains(atom.get()) {
            return false;
        }
    }
    true
}

// The same atoms, which are shared.
fn copied(alloc: Global, atoms: &[Shared<Atom>]) -> Result<List<Shared<Atom>>, Memory>
    ensures { IfOk result (λ list. list ≡ atoms.now) }
{
    let mut out = List::new(alloc);
    for atom in atoms {
        out.add(atom.share()?)?;
    }
    Ok(out)
}

// The atoms of the list that are in the set.
#[tactic(auto, using(crate::proofs::AtomKinds::keeps))]
fn kept(alloc: Global, atoms: &[Shared<Atom>], set: &AtomSet) -> Result<AtomSet, Memory>
    requires { IsTrue (are_listed atoms.now) }
    ensures { IfOk result (λ s. s ≡ listed (filter (has set.now) atoms.now)) }
{
    let mut out = List::new(alloc);
    for atom in atoms {
        if set.contains(atom.get()) {
            out.add(atom.share()?)?;
        }
    }
    AtomSet::listed(alloc, out)
}

// Where the atom goes in an ascending list, and `None` where it is there.
fn position_of(atoms: &[Shared<Atom>], atom: &Atom) -> Option<usize>
    ensures some { IfSome result (λ at. (at ≤ length atoms.now) × (placed name_cmp atom.now atoms.now ≡ insert atoms.now at atom.now)) }
    ensures none { IfNone result (placed name_cmp atom.now atoms.now ≡ atoms.now) }
{
    for (at, other) in atoms.iter().enumerate() {
        match atom.cmp(other.get()) {
            Ordering::Less => return Some(at),
            Ordering::Equal => return None,
            Ordering::Greater => {}
        }
    }
    Some(atoms.len())
}

// Puts the atom into an ascending list.
fn put(atoms: &mut List<Shared<Atom>>, atom: &Shared<Atom>) -> Result<(), Memory>
    ensures { OnOk result (atoms.new ≡ placed name_cmp atom.now atoms.old) }
{
    match position_of(atoms.as_slice(), atom.get()) {
        Some(at) => atoms.insert(at, atom.share()?),
        None => Ok(()),
    }
}

// The set of the atoms of two ascending lists, and all atoms where they are more than
// `MAX_MEMBERS`.
#[tactic(auto, using(crate::proofs::AtomKinds::merges))]
fn both(alloc: Global, atoms: &[Shared<Atom>], others: &[Shared<Atom>]) -> Result<AtomSet, Memory>
    requires { IsTrue (are_listed atoms.now) }
    ensures { IfOk result (λ set. set ≡ or_else (merged name_cmp atoms.now others.now) every) }
{
    let mut out = copied(alloc, atoms)?;
    for atom in others {
        put(&mut out, atom)?;
        if out.len() > MAX_MEMBERS {
            return Ok(AtomSet::all());
        }
    }
    AtomSet::listed(alloc, out)
}
