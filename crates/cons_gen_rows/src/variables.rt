//! The variables in scope, each with its slot.
ghost use Rattle.std.specs.Prelude.{◌≡◌, [], ◌∷◌, ◌++◌, drop, length, map, take, IfOk, OnOk, OnErr};
ghost use Rattle.cons_gen_rows.specs.Scopes.{slot_of};

use cons_tree::Slot;
use core_scope::Names;
use std::alloc::Global;
use std::marker::Model;
use type_kinds::{Atom, List, Memory};

/// The variables in scope, each with its slot, the outer before the inner. A look-up is one in a hash table,
/// however many there are. Contracts see the list of the pairs.
#[derive(Drop)]
pub struct Variables {
    names: Names<Atom>,
    slots: List<Slot>,
}

impl Model for Variables {
    ghost use Rattle.std.specs.Prelude.{◌≡◌, ℕ, List, length};
    ghost use Rattle.std.specs.List.{zip};
    ghost use Rattle.type_kinds.specs.declared.atom.Atom.{Atom};
    ghost use Rattle.cons_gen_rows.specs.steps.Codes.{variables_code};

    ghost Value = { List (Atom × ℕ) };

    ghost coded = { variables_code };

    ghost view = { λ it. zip it.names it.slots };

    ghost invariant = { λ it. length it.names ≡ length it.slots };
}

impl Variables {
    /// No variables. Takes no memory.
    pub fn new(alloc: Global) -> Variables
        ensures { result ≡ [] }
    {
        Variables {
            names: Names::new(alloc),
            slots: List::new(alloc),
        }
    }

    /// How many variables there are, each as often as it was bound.
    pub fn len(&self) -> usize
        ensures { result ≡ length self.now }
    {
        self.slots.len()
    }

    /// Binds a variable to a slot, inside all others. `Memory` if allocation fails; then all is as before.
    pub fn push(&mut self, name: &Atom, slot: Slot) -> Result<(), Memory>
        ensures bound { OnOk result (self.new ≡ self.old ++ (name.now, slot) ∷ []) }
        ensures unchanged { OnErr result (self.new ≡ self.old) }
    {
        let count = self.slots.len();
        self.slots.add(slot)?;
        match self.names.push(name) {
            Ok(()) => Ok(()),
            Err(Memory) => {
                self.slots.truncate(count);
                Err(Memory)
            }
        }
    }

    /// Binds variables, each inside those before it. `Memory` if allocation fails.
    pub fn push_all(&mut self, bindings: &[(Atom, Slot)]) -> Result<(), Memory>
        ensures { OnOk result (self.new ≡ self.old ++ bindings.now) }
    {
        for (name, slot) in bindings {
            self.push(name, *slot)?;
        }
        Ok(())
    }

    /// Ends bindings, the innermost first, until no more than `len` are left.
    pub fn leave(&mut self, len: usize)
        ensures { self.new ≡ take len self.old }
    {
        let len = len.min(self.slots.len());
        self.slots.truncate(len);
        self.names.leave(len);
    }

    /// The slot of a variable's innermost binding, or `None` where it isn't bound. Takes no memory.
    pub fn slot_of(&self, name: &Atom) -> Option<Slot>
        ensures { result ≡ slot_of self.now name.now }
    {
        match self.names.place_of(name) {
            Some(position) => self.slots.get(position).copied(),
            None => None,
        }
    }

    /// The slots of the variables that were bound after the first `len` of them. `Memory` if allocation fails.
    pub fn slots_since(&self, alloc: Global, len: usize) -> Result<List<Slot>, Memory>
        ensures { IfOk result (λ slots. slots ≡ map (λ b. b.1) (drop len self.now)) }
    {
        let len = len.min(self.slots.len());
        List::from_slice(alloc, &self.slots.as_slice()[len..])
    }
}
