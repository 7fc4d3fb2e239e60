//! Values with numbers.
ghost use Rattle.std.specs.Prelude.{◌≡◌, ℕ, true, [], ◌∷◌, ◌++◌, length, Contains, Some};
ghost use Rattle.std.specs.Prelude.{slice_get, option_copied, IfSome, IfNone, IfOk, OnOk};
ghost use Rattle.fun_flow_numbers.specs.steps.Numbers.{AreApart, KeepsNumbers};

use fun_flow_places::{FlowPlace, Item};
use indexmap::IndexSet;
use std::alloc::Global;
use std::hash::Hash;
use std::marker::Model;
use type_kinds::Memory;

/// What can be numbered.
pub trait Numberable: Eq + Hash + Drop {
    // values that are equal by `==` are the same value
    ghost same: { (a b : Self) → Self.eq a b ≡ true → a ≡ b };
}

impl Numberable for FlowPlace {
    ghost use Rattle.fun_flow_numbers.specs.steps.Same.{places_same};

    ghost same = { places_same };
}

impl Numberable for Item {
    ghost use Rattle.fun_flow_numbers.specs.steps.Same.{items_same};

    ghost same = { items_same };
}

/// Values, each once, with its position as its number. A look-up is one in a hash table. Contracts see the list
/// of the values.
#[derive(Drop)]
pub struct Numbered<T: Numberable> {
    values: IndexSet<T>,
}

impl<T: Numberable> Model for Numbered<T> {
    ghost use Rattle.std.specs.Prelude.{List};
    ghost use Rattle.std.specs.Coded.{coded_list};

    ghost Value = { List T };

    ghost coded = { coded_list T.code };

    ghost use Rattle.indexmap.specs.IndexSet.{IsUnique};

    ghost view = { λ n. n.values.keys };

    ghost invariant = { λ n. IsUnique T.eq n.values };
}

impl<T: Numberable> Numbered<T> {
    /// No values. Takes no memory.
    pub fn new(alloc: Global) -> Numbered<T>
        ensures { result ≡ [] }
    {
        Numbered {
            values: IndexSet::new(alloc),
        }
    }

    /// How many values there are.
    pub fn len(&self) -> usize
        ensures count { result ≡ length self.now }
        ensures once { AreApart self.now }
    {
        self.values.len()
    }

    /// The value of a number.
    pub fn get(&self, number: usize) -> Option<&T>
        ensures { option_copied result ≡ slice_get self.now number }
    {
        self.values.get_index(number)
    }

    /// The number of a value, or `None` where it isn't among them.
    pub fn number_of(&self, value: &T) -> Option<usize>
        ensures found { IfSome result (λ number. slice_get self.now number ≡ Some value.now) }
        ensures only { IfSome result (λ number. (other : ℕ) → slice_get self.now other ≡ Some value.now → other ≡ number) }
        ensures missing { IfNone result (Contains self.now value.now → ⊥) }
    {
        self.values.get_index_of(value)
    }

    /// The number of a value, which goes last where it isn't among them. `Memory` if allocation fails.
    pub fn add(&mut self, value: T) -> Result<usize, Memory>
        ensures number { IfOk result (λ number. slice_get self.new number ≡ Some value) }
        ensures kept { OnOk result (KeepsNumbers self.old self.new) }
        ensures added { (Contains self.old value → ⊥) → OnOk result (self.new ≡ self.old ++ value ∷ []) }
    {
        match self.values.insert_full(value) {
            Ok((position, _)) => Ok(position),
            Err(_) => Err(Memory),
        }
    }
}
