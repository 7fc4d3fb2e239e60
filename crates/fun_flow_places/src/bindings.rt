//! Names with values, the inner in front of the outer.
ghost use Rattle.std.specs.Prelude.{◌≡◌, [], ◌∷◌, ◌++◌, length, take, OnOk, OnErr};
ghost use Rattle.fun_flow_places.specs.Bindings.{value_of};

use core_scope::{Name, Names};
use std::alloc::Global;
use std::marker::Model;
use type_kinds::{List, Memory};

/// The names that are bound now, each with a value, the outer before the inner. A look-up is one in a hash
/// table, however many there are. Contracts see the list of the pairs.
#[derive(Drop)]
pub struct Bindings<T: Name, V: Copy + Drop> {
    names: Names<T>,
    values: List<V>,
}

impl<T: Name, V: Copy + Drop> Model for Bindings<T, V> {
    ghost use Rattle.std.specs.Prelude.{◌≡◌, List, length};
    ghost use Rattle.std.specs.Coded.{coded_list, coded×};
    ghost use Rattle.std.specs.List.{zip};

    ghost Value = { List (T × V) };

    ghost coded = { coded_list (coded× T.code V.code) };

    ghost view = { λ it. zip it.names it.values };

    ghost invariant = { λ it. length it.names ≡ length it.values };
}

impl<T: Name, V: Copy + Drop> Bindings<T, V> {
    /// No names. Takes no memory.
    pub fn new(alloc: Global) -> Bindings<T, V>
        ensures { result ≡ [] }
    {
        Bindings {
            names: Names::new(alloc),
            values: List::new(alloc),
        }
    }

    /// How many names are bound, each as often as it is.
    pub fn len(&self) -> usize
        ensures { result ≡ length self.now }
    {
        self.values.len()
    }

    /// Binds a name to a value, inside all others. `Memory` if allocation fails; then all is as before.
    pub fn push(&mut self, name: &T, value: V) -> Result<(), Memory>
        ensures bound { OnOk result (self.new ≡ self.old ++ (name.now, value) ∷ []) }
        ensures unchanged { OnErr result (self.new ≡ self.old) }
    {
        let count = self.values.len();
        self.values.add(value)?;
        match self.names.push(name) {
            Ok(()) => Ok(()),
            Err(Memory) => {
                self.values.truncate(count);
                Err(Memory)
            }
        }
    }

    /// Ends bindings, the innermost first, until no more than `len` are left.
    pub fn leave(&mut self, len: usize)
        ensures { self.new ≡ take len self.old }
    {
        let len = len.min(self.values.len());
        self.values.truncate(len);
        self.names.leave(len);
    }

    /// The value of a name's innermost binding, or `None` where it isn't bound. Takes no memory.
    pub fn get(&self, name: &T) -> Option<V>
        ensures { result ≡ value_of T.eq self.now name.now }
    {
        match self.names.place_of(name) {
            Some(position) => self.values.get(position).copied(),
            None => None,
        }
    }
}
