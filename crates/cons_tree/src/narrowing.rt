//! The rows of the parts, on the array, and narrowing from an environment to an environment.
ghost use Rattle.std.specs.Prelude.{◌≡◌, IfOk, length};
ghost use Rattle.cons_tree.specs.declared.parts.Part.TheVariants as part;
ghost use Rattle.cons_tree.specs.declared.parts.Env.TheVariants as env;
ghost use Rattle.cons_tree.specs.Environments.{Assignment, IsBelow, LiesInState, env_of, on_types, state_of};
ghost use Rattle.cons_tree.specs.Narrowing.{narrowed, each_typed, each_projected};
ghost use Rattle.cons_tree.specs.Satisfied.{SatPart};
ghost use Rattle.cons_tree.specs.Trails.{answer, Trailed};

use crate::copies::{own_types, share_types};
use crate::laws::narrowing_laws;
use crate::parts::{Env, Part, Slot};
use crate::signatures::any_none;
use crate::slots::{Slots, discard_slots};
use std::alloc::Global;
use type_kinds::{List, Memory};
use type_lattice::{Ends, Ty};

impl Slots {
    // Narrows each slot by its type.
    fn lower_each(&mut self, alloc: Global, slots: &[Slot], types: &[Ty]) -> Result<bool, Memory>
        ensures value { IfOk result (λ alive. each_typed slots.now types.now self.old.types ≡ answer alive self.new.types) }
        ensures trailed { IfOk result (λ _. Trailed self.old self.new) }
    {
        let count = slots.len().min(types.len());
        for at in 0..count {
            let slot = slots[at];
            let alive = self.lower(alloc, slot, &types[at])?;
            if !alive {
                return Ok(false);
            }
        }
        Ok(true)
    }

    // Narrows each slot by what stands at its position in the tuples of as many elements. `Memory`
    // comes for 2^32 slots or more, too.
    fn lower_elements(&mut self, alloc: Global, tuple: Slot, slots: &[Slot]) -> Result<bool, Memory>
        ensures value { IfOk result (λ alive. each_projected tuple (length slots.now) 1 slots.now self.old.types ≡ answer alive self.new.types) }
        ensures trailed { IfOk result (λ _. Trailed self.old self.new) }
    {
        if slots.len() > u32::MAX as usize {
            return Err(Memory);
        }
        let size = slots.len() as u32;
        for at in 0..size {
            let slot = slots[at as usize];
            let there = self.at(tuple).project(alloc, size, at + 1)?;
            let alive = self.lower_to(alloc, slot, there)?;
            if !alive {
                return Ok(false);
            }
        }
        Ok(true)
    }

    fn tuple(&mut self, alloc: Global, tuple: Slot, slots: &List<Slot>) -> Result<bool, Memory>
        ensures value { IfOk result (λ alive. narrowed (part.Tuple tuple slots.now) self.old.types ≡ answer alive self.new.types) }
        ensures trailed { IfOk result (λ _. Trailed self.old self.new) }
    {
        let elements = self.types_of(alloc, slots.as_slice())?;
        let made = Ty::tuple(alloc, elements.as_slice())?;
        let alive = self.lower_to(alloc, tuple, made)?;
        if !alive {
            return Ok(false);
        }
        self.lower_elements(alloc, tuple, slots.as_slice())
    }

    fn cons(&mut self, alloc: Global, list: Slot, head: Slot, tail: Slot) -> Result<bool, Memory>
        ensures value { IfOk result (λ alive. narrowed (part.Cons list head tail) self.old.types ≡ answer alive self.new.types) }
        ensures trailed { IfOk result (λ _. Trailed self.old self.new) }
    {
        let made = Ty::cons(alloc, self.at(head), self.at(tail), Ends::Proper)?;
        let alive = self.lower_to(alloc, list, made)?;
        if !alive {
            return Ok(false);
        }
        let heads = self.at(list).elem(alloc)?;
        let alive = self.lower_to(alloc, head, heads)?;
        if !alive {
            return Ok(false);
        }
        let rest = self.at(list).tail(alloc)?;
        self.lower_to(alloc, tail, rest)
    }

    /// Narrows the array by a part, and says whether an environment is left. The trail tells what
    /// each slot was that changed. If allocation fails, the array's contents are unspecified. `Memory` comes for
    /// a tuple of 2^32 slots or more, too.
    pub fn narrow(&mut self, alloc: Global, part: &Part) -> Result<bool, Memory>
        ensures value { IfOk result (λ alive. narrowed part.now self.old.types ≡ answer alive self.new.types) }
        ensures trailed { IfOk result (λ _. Trailed self.old self.new) }
    {
        match part {
            Part::Bound(slot, ty) => self.lower_shared(alloc, *slot, ty),
            Part::Equal(slot, other) => self.lower_both(alloc, *slot, *other),
            Part::Tuple(tuple, slots) => self.tuple(alloc, *tuple, slots),
            Part::Cons(list, head, tail) => self.cons(alloc, *list, *head, *tail),
            Part::Call(value, args, sig) => {
                let sig = sig.get();
                let alive = self.lower_each(alloc, args.as_slice(), sig.args.as_slice())?;
                if !alive {
                    return Ok(false);
                }
                self.lower(alloc, *value, &sig.result)
            }
            Part::Builtin(value, args, types, transfer) => {
                let alive = self.lower_each(alloc, args.as_slice(), types.as_slice())?;
                if !alive {
                    return Ok(false);
                }
                self.transfer(alloc, transfer, *value, args.as_slice())
            }
        }
    }
}

/// Narrows an environment by a part. It is below, and keeps each assignment of the environment that
/// satisfies the part. `Memory` comes if allocation fails, or for a tuple of 2^32 slots or more.
pub fn narrow(alloc: Global, part: &Part, env: &Env) -> Result<Env, Memory>
    ensures value { IfOk result (λ e. e ≡ env_of (on_types (state_of env.now) (narrowed part.now))) }
    ensures below { IfOk result (λ e. IsBelow (state_of e) (state_of env.now)) }
    ensures keeps { IfOk result (λ e. (a : Assignment) → LiesInState a (state_of env.now) → SatPart part.now a → LiesInState a (state_of e)) }
{
    narrowing_laws();
    match env {
        Env::Bottom => Ok(Env::Bottom),
        Env::Types(types) => narrow_types(alloc, part, types.as_slice()),
    }
}

// Narrows an environment that may have a slot at none.
fn narrow_types(alloc: Global, part: &Part, types: &[Ty]) -> Result<Env, Memory>
    ensures { IfOk result (λ e. e ≡ env_of (on_types (state_of (env.Types types.now)) (narrowed part.now))) }
{
    if any_none(types) {
        return Ok(Env::Bottom);
    }
    let shared = share_types(alloc, types)?;
    let mut slots = Slots::new(alloc, shared);
    let alive = slots.narrow(alloc, part)?;
    if alive {
        let left = own_types(alloc, slots.types.as_slice())?;
        discard_slots(slots);
        return Ok(Env::Types(left));
    }
    discard_slots(slots);
    Ok(Env::Bottom)
}
