//! How one slot of the array is read, lowered, and put back.
ghost use Rattle.std.specs.Prelude.{◌≡◌, [], ◌∷◌, ◌++◌, ◌≤◌, IfOk, IsTrue, length, drop, take, map, not, replicate};
ghost use Rattle.type_lattice.specs.Types.{Below, Type4, any, is_none, join, meet};
ghost use Rattle.cons_tree.specs.Environments.{type_at, with_type, lowered};
ghost use Rattle.cons_tree.specs.Narrowing.{alike};
ghost use Rattle.cons_tree.specs.Trails.{answer, laid, Trailed, Within};

use crate::parts::Slot;
use crate::signatures::discard;
use crate::slots::{
    Slots, TrailEntry, add_anys, discard_shared, discard_trail, discard_trail_entry, shared_any,
};
use std::alloc::Global;
use type_kinds::{List, Memory, Shared};
use type_lattice::{Ty, type_laws};

impl Slots {
    /// An array with an empty trail. Takes no memory.
    pub fn new(alloc: Global, types: List<Shared<Ty>>) -> Slots
        ensures types { result.types ≡ types }
        ensures trail { result.trail ≡ [] }
    {
        Slots {
            types,
            trail: List::new(alloc),
            every: Ty::any(),
        }
    }

    /// An array of `count` slots that may have any value, with an empty trail. `Memory` comes if allocation fails.
    pub fn anys(alloc: Global, count: u64) -> Result<Slots, Memory>
        ensures types { IfOk result (λ slots. slots.types ≡ replicate count any) }
        ensures trail { IfOk result (λ slots. slots.trail ≡ []) }
    {
        let mut types = List::new(alloc);
        add_anys(alloc, &mut types, count)?;
        Ok(Slots::new(alloc, types))
    }

    /// The types, without the trail. Takes no memory.
    pub fn into_types(self) -> List<Shared<Ty>>
        ensures { result ≡ self.types }
    {
        let Slots {
            types,
            trail,
            every,
        } = self;
        discard_trail(trail);
        discard(every);
        types
    }

    /// The type of a slot, and any past the end.
    pub fn at(&self, slot: Slot) -> &Ty
        ensures { result.now ≡ type_at self.now.types slot }
    {
        match self.types.get(slot as usize) {
            Some(ty) => ty.get(),
            None => &self.every,
        }
    }

    /// The types of some slots. `Memory` comes if allocation fails.
    pub fn types_of(&self, alloc: Global, slots: &[Slot]) -> Result<List<Ty>, Memory>
        ensures { IfOk result (λ ts. ts ≡ map (type_at self.now.types) slots.now) }
    {
        let mut types = List::new(alloc);
        for slot in slots {
            let copy = self.at(*slot).copy()?;
            types.add(copy)?;
        }
        Ok(types)
    }

    // Whether the slot has a value.
    fn has_value(&self, slot: Slot) -> bool
        ensures { result ≡ not (is_none (type_at self.now.types slot)) }
    {
        !self.at(slot).is_none()
    }

    /// The type of a slot, with one owner more, and any past the end. `Memory` comes if allocation fails.
    pub fn shared_at(&self, alloc: Global, slot: Slot) -> Result<Shared<Ty>, Memory>
        ensures { IfOk result (λ ty. ty ≡ type_at self.now.types slot) }
    {
        match self.types.get(slot as usize) {
            Some(ty) => ty.share(),
            None => shared_any(alloc),
        }
    }

    // Puts a smaller type into a slot, and says whether it has a value. The trail tells what was
    // there. If allocation fails, the array's contents are unspecified.
    fn put(&mut self, slot: Slot, ty: Shared<Ty>) -> Result<bool, Memory>
        requires below { Below ty (type_at self.old.types slot) }
        requires smaller { Below (type_at self.old.types slot) ty → ⊥ }
        ensures value { IfOk result (λ alive. with_type self.old.types slot ty ≡ answer alive self.new.types) }
        ensures trailed { IfOk result (λ _. Trailed self.old self.new) }
    {
        if ty.get().is_none() {
            discard_shared(ty);
            return Ok(false);
        }
        if slot as usize >= self.types.len() {
            discard_shared(ty);
            return Ok(true);
        }
        let former = self.types.replace(slot as usize, ty);
        match self.trail.push(TrailEntry { slot, ty: former }) {
            Ok(()) => Ok(true),
            Err((entry, Memory)) => {
                discard_trail_entry(entry);
                Err(Memory)
            }
        }
    }

    /// The meet of a slot's type and another. Where the other is below the slot's, it is the answer itself, and no
    /// type is made. `Memory` comes if allocation fails.
    pub fn meet_at(&self, alloc: Global, slot: Slot, ty: Shared<Ty>) -> Result<Shared<Ty>, Memory>
        ensures { IfOk result (λ met. met ≡ meet (type_at self.now.types slot) ty) }
    {
        type_laws();
        if ty.get().leq(self.at(slot)) {
            return Ok(ty);
        }
        let met = self.at(slot).meet(alloc, ty.get())?;
        discard_shared(ty);
        let made = Shared::new(alloc, met)?;
        Ok(made)
    }

    /// The join of a type and a slot's. Where the slot's is below, it is the type itself, and no type is made.
    /// `Memory` comes if allocation fails.
    pub fn join_at(&self, alloc: Global, slot: Slot, ty: &Shared<Ty>) -> Result<Shared<Ty>, Memory>
        ensures { IfOk result (λ joined. joined ≡ join ty.now (type_at self.now.types slot)) }
    {
        type_laws();
        if self.at(slot).leq(ty.get()) {
            let shared = ty.share()?;
            return Ok(shared);
        }
        let joined = ty.get().join(alloc, self.at(slot))?;
        let made = Shared::new(alloc, joined)?;
        Ok(made)
    }

    // Whether the slot may have any value.
    fn is_free(&self, slot: Slot) -> bool
        ensures { IsTrue result → (t : Type4) → Below t (type_at self.now.types slot) }
    {
        type_laws();
        self.every.leq(self.at(slot))
    }

    // The meet of a slot's type and another, which is the other itself where the slot may have any value.
    fn meet_with(&self, alloc: Global, slot: Slot, ty: Shared<Ty>) -> Result<Shared<Ty>, Memory>
        ensures { IfOk result (λ met. met ≡ meet (type_at self.now.types slot) ty) }
    {
        type_laws();
        if self.is_free(slot) {
            return Ok(ty);
        }
        let met = self.at(slot).meet(alloc, ty.get())?;
        discard_shared(ty);
        let made = Shared::new(alloc, met)?;
        Ok(made)
    }

    /// Narrows a slot to the meet of its type and another, and says whether it has a value. Where the
    /// slot is below the other type, this takes no memory. If allocation fails, the array's contents are unspecified.
    pub fn lower(&mut self, alloc: Global, slot: Slot, ty: &Ty) -> Result<bool, Memory>
        ensures value { IfOk result (λ alive. lowered self.old.types slot ty.now ≡ answer alive self.new.types) }
        ensures trailed { IfOk result (λ _. Trailed self.old self.new) }
    {
        type_laws();
        if self.at(slot).leq(ty) {
            return Ok(self.has_value(slot));
        }
        let met = self.at(slot).meet(alloc, ty)?;
        let shared = Shared::new(alloc, met)?;
        self.put(slot, shared)
    }

    /// The same with a type that the slot shares where it is below the slot's.
    pub fn lower_shared(
        &mut self,
        alloc: Global,
        slot: Slot,
        ty: &Shared<Ty>,
    ) -> Result<bool, Memory>
        ensures value { IfOk result (λ alive. lowered self.old.types slot ty.now ≡ answer alive self.new.types) }
        ensures trailed { IfOk result (λ _. Trailed self.old self.new) }
    {
        type_laws();
        if self.at(slot).leq(ty.get()) {
            return Ok(self.has_value(slot));
        }
        let shared = ty.share()?;
        let met = self.meet_with(alloc, slot, shared)?;
        self.put(slot, met)
    }

    /// The same with a type that was made for it.
    pub fn lower_to(&mut self, alloc: Global, slot: Slot, ty: Ty) -> Result<bool, Memory>
        ensures value { IfOk result (λ alive. lowered self.old.types slot ty ≡ answer alive self.new.types) }
        ensures trailed { IfOk result (λ _. Trailed self.old self.new) }
    {
        type_laws();
        if self.at(slot).leq(&ty) {
            discard(ty);
            return Ok(self.has_value(slot));
        }
        let shared = Shared::new(alloc, ty)?;
        let met = self.meet_with(alloc, slot, shared)?;
        self.put(slot, met)
    }

    // Narrows a slot to the meet of its type and that of another slot.
    fn lower_by(&mut self, alloc: Global, slot: Slot, other: Slot) -> Result<bool, Memory>
        ensures value { IfOk result (λ alive. lowered self.old.types slot (type_at self.old.types other) ≡ answer alive self.new.types) }
        ensures trailed { IfOk result (λ _. Trailed self.old self.new) }
    {
        type_laws();
        if self.at(slot).leq(self.at(other)) {
            return Ok(self.has_value(slot));
        }
        let shared = self.shared_at(alloc, other)?;
        let met = self.meet_with(alloc, slot, shared)?;
        self.put(slot, met)
    }

    /// Narrows two slots to the meet of both. If allocation fails, the array's contents are unspecified.
    pub fn lower_both(&mut self, alloc: Global, slot: Slot, other: Slot) -> Result<bool, Memory>
        ensures value { IfOk result (λ alive. alike slot other self.old.types ≡ answer alive self.new.types) }
        ensures trailed { IfOk result (λ _. Trailed self.old self.new) }
    {
        let alive = self.lower_by(alloc, slot, other)?;
        if !alive {
            return Ok(false);
        }
        self.lower_by(alloc, other, slot)
    }

    /// Puts back what the trail tells from a checkpoint on, the newest first, and forgets it. Takes no
    /// memory.
    pub fn undo(&mut self, checkpoint: usize)
        requires checkpoint { checkpoint ≤ length self.old.trail }
        requires within { Within (length self.old.types) (drop checkpoint self.old.trail) }
        ensures types { self.new.types ≡ laid (drop checkpoint self.old.trail) self.old.types }
        ensures trail { self.new.trail ≡ take checkpoint self.old.trail }
    {
        while self.trail.len() > checkpoint {
            if let Some(former) = self.trail.pop() {
                discard_shared(self.types.replace(former.slot as usize, former.ty));
            }
        }
    }
}
