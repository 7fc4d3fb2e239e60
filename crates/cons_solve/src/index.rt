//! Which members of a list of constraints name a slot, found by order.
ghost use Rattle.std.specs.Prelude.{◌≡◌, ◌∷◌, ℕ, IfOk};
ghost use Rattle.std.specs.List.Sorted.{IsNonDecreasingBy};
ghost use Rattle.std.proofs.Props.{props};
ghost use Rattle.cons_tree.specs.Constraints.{constraint, constraints};
ghost use Rattle.cons_tree.specs.Frames.{IsNone, slots_of};
ghost use Rattle.cons_solve.specs.Frames.{Free, FreeEach};
ghost use Rattle.cons_solve.specs.steps.Positions.{Covers, Grown, named};

use cons_tree::{Constraint, Part, Slot};
use std::alloc::Global;
use type_kinds::{List, Memory};

/// A slot, and a member of the list that names it.
#[derive(Clone, Copy)]
pub struct Naming {
    pub slot: Slot,
    pub member: usize,
}

/// Which members of a list name a slot: the namings, by rising slots. One may stand more than once.
#[derive(Drop)]
pub struct Index {
    pub namings: List<Naming>,
    ghost rising: { IsNonDecreasingBy (λ n. n.slot) namings } by { Prim.hlevel props },
}

impl Index {
    /// The namings of a slot.
    pub fn at(&self, slot: Slot) -> &[Naming]
        ensures { result.now ≡ named self.now.namings slot }
    {
        let all = self.namings.as_slice();
        let first = all.partition_point(|naming| naming.slot < slot);
        let rest = &all[first..];
        let count = rest.partition_point(|naming| naming.slot <= slot);
        &rest[..count]
    }
}

// Enters a member at a slot.
fn enter_at(namings: &mut List<Naming>, slot: Slot, member: usize) -> Result<(), Memory>
    ensures { IfOk result (λ _. Grown (λ s. slot ≡ s → ⊥) member namings.old namings.new) }
{
    namings.add(Naming { slot, member })
}

// Enters a member at some slots.
fn enter_slots(
    namings: &mut List<Naming>,
    first: Slot,
    others: &[Slot],
    member: usize,
) -> Result<(), Memory>
    ensures { IfOk result (λ _. Grown (λ s. IsNone s (first ∷ others.now)) member namings.old namings.new) }
{
    enter_at(namings, first, member)?;
    for slot in others {
        enter_at(namings, *slot, member)?;
    }
    Ok(())
}

// Enters a member at each slot that a part of it names.
fn enter_part(namings: &mut List<Naming>, part: &Part, member: usize) -> Result<(), Memory>
    ensures { IfOk result (λ _. Grown (λ s. IsNone s (slots_of part.now)) member namings.old namings.new) }
{
    match part {
        Part::Bound(slot, _) => enter_slots(namings, *slot, &[], member),
        Part::Equal(slot, other) => enter_slots(namings, *slot, &[*other], member),
        Part::Tuple(tuple, slots) => enter_slots(namings, *tuple, slots.as_slice(), member),
        Part::Cons(list, head, tail) => enter_slots(namings, *list, &[*head, *tail], member),
        Part::Builtin(value, args, _, _) => enter_slots(namings, *value, args.as_slice(), member),
        Part::Call(value, args, _) => enter_slots(namings, *value, args.as_slice(), member),
    }
}

// Enters a member at each slot that it names.
#[cycle(entering)]
fn enter(namings: &mut List<Naming>, c: &Constraint, member: usize) -> Result<(), Memory>
    ensures { IfOk result (λ _. Grown (λ s. Free s (constraint c.now)) member namings.old namings.new) }
{
    match c {
        Constraint::Part(part) => enter_part(namings, part, member),
        Constraint::All(inner) => enter_each(namings, inner.as_slice(), member),
        Constraint::Any(inner) => enter_each(namings, inner.as_slice(), member),
    }
}

#[cycle(entering)]
fn enter_each(namings: &mut List<Naming>, inner: &[Constraint], member: usize) -> Result<(), Memory>
    ensures { IfOk result (λ _. Grown (λ s. FreeEach s (constraints inner.now)) member namings.old namings.new) }
{
    for c in inner {
        enter(namings, c, member)?;
    }
    Ok(())
}

// The namings of all members, member by member.
fn namings_of(alloc: Global, members: &[Constraint]) -> Result<List<Naming>, Memory>
    ensures { IfOk result (λ namings. Covers members.now namings) }
{
    let mut namings = List::new(alloc);
    for at in 0..members.len() {
        enter(&mut namings, &members[at], at)?;
    }
    Ok(namings)
}

/// For each slot, the members that name it. `Memory` comes if allocation fails.
pub fn index_of(alloc: Global, members: &[Constraint]) -> Result<Index, Memory>
    ensures { IfOk result (λ index. Covers members.now index.namings) }
{
    let mut namings = namings_of(alloc, members)?.into_vec();
    match namings.sort_by_key(|naming| naming.slot) {
        Ok(()) => Ok(Index {
            namings: List::from_vec(namings),
        }),
        Err(_) => Err(Memory),
    }
}
