ghost use Rattle.std.specs.Prelude.{◌≡◌, ℕ, ◌+◌, ◌-◌, ◌≤◌, ◌<◌, ◌↔◌, [], ◌∷◌, ◌++◌, true, false, length, take};
ghost use Rattle.std.specs.Prelude.{drop, slice_get, slice_index_or, Some, IsSome, IfSome, IfOk, OnOk, OnErr};
ghost use Rattle.std.specs.List.{list_any};
ghost use Rattle.core_scope.specs.steps.Trail.{MaybeNewKey};

use core_ast::FunName;
use indexmap::IndexSet;
use std::alloc::Global;
use std::hash::Hash;
use std::marker::Model;
use type_kinds::{Atom, List, Memory};

/// A name that can be kept in a `Names`: a variable, or a function with its arity.
pub trait Name: Eq + Hash + Drop {
    /// A second value of the same name. `Memory` if allocation fails.
    fn copied(&self, alloc: Global) -> Result<Self, Memory>
        ensures { IfOk result (λ copy. copy ≡ self.now) };

    // names that are equal by `==` are the same value
    ghost same: { (a b : Self) → Self.eq a b ≡ true → a ≡ b };
}

impl Name for Atom {
    ghost use Rattle.core_scope.specs.steps.SameNames.{atoms_same};

    fn copied(&self, alloc: Global) -> Result<Atom, Memory> {
        self.copy(alloc)
    }

    ghost same = { atoms_same };
}

impl Name for FunName {
    ghost use Rattle.core_scope.specs.steps.SameNames.{functions_same};

    fn copied(&self, alloc: Global) -> Result<FunName, Memory> {
        self.copy(alloc)
    }

    ghost same = { functions_same };
}

/// One binding of a name.
#[derive(Clone, Copy, Debug)]
pub struct Binding {
    /// The name's number.
    pub number: usize,
    /// How many names were bound when the name was bound before, itself among them; 0 if it wasn't.
    pub before: usize,
}

/// The names that are bound now, in the order in which they were bound: the outer before the inner. One name
/// may be bound several times. A look-up is one in a hash table, however many names are bound. Contracts see the
/// list of the names.
#[derive(Drop)]
pub struct Names<T: Name> {
    alloc: Global,
    numbers: IndexSet<T>,
    last: List<usize>,
    bound: List<Binding>,
}

impl<T: Name> Model for Names<T> {
    ghost use Rattle.std.specs.Prelude.{List};
    ghost use Rattle.std.specs.Coded.{coded_list};
    ghost use Rattle.core_scope.specs.steps.Trail.{bound_names, IsTable};

    ghost Value = { List T };

    ghost coded = { coded_list T.code };

    ghost view = { λ n. bound_names n.numbers.keys n.bound };

    ghost invariant = { λ n. IsTable T.eq n.numbers.keys n.last n.bound };
}

impl<T: Name> Names<T> {
    /// No names. Takes no memory.
    pub fn new(alloc: Global) -> Names<T>
        ensures { result ≡ [] }
    {
        Names {
            alloc,
            numbers: IndexSet::new(alloc),
            last: List::new(alloc),
            bound: List::new(alloc),
        }
    }

    /// How many names are bound, each as often as it is.
    pub fn len(&self) -> usize
        ensures { result ≡ length self.now }
    {
        self.bound.len()
    }

    /// Whether the name is among those that were bound after the first `from` of them.
    pub fn has_since(&self, from: usize, name: &T) -> bool
        ensures { result ≡ list_any (T.eq name.now) (drop from self.now) }
    {
        match self.numbers.get_index_of(name) {
            Some(number) => from < last_of(&self.last, number),
            None => false,
        }
    }

    /// Whether the name is bound.
    pub fn has(&self, name: &T) -> bool
        ensures { result ≡ list_any (T.eq name.now) self.now }
    {
        self.has_since(0, name)
    }

    /// Where the innermost binding of the name stands among all that are bound, or `None` where the name isn't
    /// bound. Takes no memory.
    pub fn place_of(&self, name: &T) -> Option<usize>
        ensures bound { IsSome result ↔ (list_any (T.eq name.now) self.now ≡ true) }
        ensures there { IfSome result (λ place. list_any (T.eq name.now) (drop place self.now) ≡ true) }
        ensures innermost { IfSome result (λ place. list_any (T.eq name.now) (drop (place + 1) self.now) ≡ false) }
    {
        match self.numbers.get_index_of(name) {
            Some(number) => last_of(&self.last, number).checked_sub(1),
            None => None,
        }
    }

    /// Binds a name, behind all others. `Memory` if allocation fails; then the same names are bound as before.
    pub fn push(&mut self, name: &T) -> Result<(), Memory>
        ensures bound { OnOk result (self.new ≡ self.old ++ name.now ∷ []) }
        ensures unchanged { OnErr result (self.new ≡ self.old) }
    {
        let number = number_of(self.alloc, &mut self.numbers, name)?;
        make_room(&mut self.last, number)?;
        let before = *self.last.at(number);
        self.bound.add(Binding { number, before })?;
        self.last.replace(number, self.bound.len());
        Ok(())
    }

    // Ends the innermost binding.
    fn pop(&mut self)
        requires { 0 < length self.old }
        ensures { self.new ≡ take (length self.old - 1) self.old }
    {
        if let Some(Binding { number, before }) = self.bound.pop() {
            self.last.replace(number, before);
        }
    }

    /// Ends bindings, the innermost first, until `len` are left. A name stays bound that was bound before them too.
    pub fn leave(&mut self, len: usize)
        requires { len ≤ length self.old }
        ensures { self.new ≡ take len self.old }
    {
        while self.len() > len {
            self.pop();
        }
    }
}

// The number of a name, which becomes a key where none is equal to it.
fn number_of<T: Name>(alloc: Global, numbers: &mut IndexSet<T>, name: &T) -> Result<usize, Memory>
    ensures keys { MaybeNewKey T.eq numbers.old.keys numbers.new.keys }
    ensures number { IfOk result (λ number. slice_get numbers.new.keys number ≡ Some name.now) }
{
    match numbers.get_index_of(name) {
        Some(number) => Ok(number),
        None => {
            let copy = name.copied(alloc)?;
            let number = numbers.len();
            match numbers.insert(copy) {
                Ok(_) => Ok(number),
                Err(_) => Err(Memory),
            }
        }
    }
}

// What the list has for a number, and 0 past its end.
fn last_of(last: &List<usize>, number: usize) -> usize
    ensures { result ≡ slice_index_or last.now number 0 }
{
    match last.get(number) {
        Some(last) => *last,
        None => 0,
    }
}

// Lengthens the list by zeros until it has the number.
fn make_room(last: &mut List<usize>, number: usize) -> Result<(), Memory>
    ensures same { (i : ℕ) → slice_index_or last.new i 0 ≡ slice_index_or last.old i 0 }
    ensures longer { length last.old ≤ length last.new }
    ensures short { (n : ℕ) → length last.old ≤ n → number < n → length last.new ≤ n }
    ensures within { OnOk result (number < length last.new) }
{
    while last.len() <= number {
        last.add(0)?;
    }
    Ok(())
}
