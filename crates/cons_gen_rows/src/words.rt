//! The rows that say something of several slots, and of lists.
ghost use Rattle.std.specs.Prelude.{◌≡◌, ◌+◌, ◌<◌, ◌≤◌, ◌^◌, [], length, IfOk, OnOk};
ghost use Rattle.cons_gen_rows.specs.Slots.{slots_from};
ghost use Rattle.cons_gen_rows.specs.Walking.{Adds};
ghost use Rattle.cons_gen_rows.specs.Words.{equals, inner_cells, list_rows, never, no_values};

use crate::generator::Generator;
use cons_tree::{Part, Slot};
use type_kinds::{List, Memory};
use type_lattice::Ty;

/// The slots of a list: the first of its inner cells, and those of its elements.
#[derive(Drop)]
pub struct Elements {
    pub cells: Slot,
    pub slots: List<Slot>,
    pub ghost fits: { cells + inner_cells (length slots) < 2 ^ 64 },
}

/// How many cells of a list of `count` elements have slots of their own behind the first.
pub fn inner_cells(count: usize) -> usize
    ensures { result ≡ inner_cells count }
{
    count.saturating_sub(1)
}

impl Generator {
    /// `count` slots, one after another, from `first` on.
    pub fn run(&self, first: Slot, count: usize) -> Result<List<Slot>, Memory>
        requires { first + count ≤ self.now.next }
        ensures { IfOk result (λ slots. slots ≡ slots_from first count) }
    {
        let mut slots = List::new(self.alloc);
        for position in 0..count {
            slots.add(first + position as u64)?;
        }
        Ok(slots)
    }

    /// Takes `count` slots and answers them.
    pub fn take_run(&mut self, count: usize) -> Result<List<Slot>, Memory>
        ensures slots { IfOk result (λ slots. slots ≡ slots_from self.old.next count) }
        ensures taken { OnOk result (Adds self.old self.new count []) }
    {
        let first = self.take(count)?;
        self.run(first, count)
    }

    /// Adds that slots of two lists have one value each, one by one, up to the shorter's end.
    pub fn equal_each(&mut self, left: &[Slot], right: &[Slot]) -> Result<(), Memory>
        ensures { OnOk result (Adds self.old self.new 0 (equals left.now right.now)) }
    {
        let count = left.len().min(right.len());
        for position in 0..count {
            self.equal(left[position], right[position])?;
        }
        Ok(())
    }

    /// Takes `count` slots that have the values of these, one by one, up to the shorter's end.
    pub fn take_equal(&mut self, count: usize, values: &[Slot]) -> Result<List<Slot>, Memory>
        ensures slots { IfOk result (λ slots. slots ≡ slots_from self.old.next count) }
        ensures rows { OnOk result (Adds self.old self.new count (equals (slots_from self.old.next count) values.now)) }
    {
        let slots = self.take_run(count)?;
        self.equal_each(slots.as_slice(), values)?;
        Ok(slots)
    }

    // Adds that none of these slots has a value.
    fn no_values(&mut self, slots: &[Slot]) -> Result<(), Memory>
        ensures { OnOk result (Adds self.old self.new 0 (no_values slots.now)) }
    {
        for slot in slots {
            self.bound(*slot, Ty::none())?;
        }
        Ok(())
    }

    /// Adds that none of these slots has a value, or where there is no slot what nothing satisfies.
    pub fn never(&mut self, slots: &[Slot]) -> Result<(), Memory>
        ensures { OnOk result (Adds self.old self.new 0 (never slots.now)) }
    {
        if slots.is_empty() {
            let start = self.count();
            return self.any_since(start);
        }
        self.no_values(slots)
    }

    /// The slots of a list, which were taken before.
    pub fn elements(&self, cells: Slot, slots: List<Slot>) -> Elements
        requires { cells + inner_cells (length slots) ≤ self.now.next }
        ensures cells { result.cells ≡ cells }
        ensures slots { result.slots ≡ slots }
    {
        let _next = self.next;
        Elements { cells, slots }
    }

    /// Adds the cells of a list: the first at `value`, each with an element, and the last one with the tail. A
    /// list without elements is its tail.
    pub fn list(&mut self, value: Slot, elements: &Elements, tail: Slot) -> Result<(), Memory>
        ensures { OnOk result (Adds self.old self.new 0 (list_rows value elements.now.cells elements.now.slots tail)) }
    {
        let Some((last, front)) = elements.slots.as_slice().split_last() else {
            return self.equal(value, tail);
        };
        let mut cell = value;
        let mut inner = elements.cells;
        for element in front {
            self.add(Part::Cons(cell, *element, inner))?;
            cell = inner;
            inner += 1;
        }
        self.add(Part::Cons(cell, *last, tail))
    }
}
