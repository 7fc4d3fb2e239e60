//! Which functions of a module read what is known of a function.
ghost use Rattle.std.specs.Prelude.{◌≡◌, ◌++◌, ◌≤◌, [], ℕ, length, true, IfOk, OnOk};
ghost use Rattle.std.specs.List.{Contains};
ghost use Rattle.std.specs.List.Sorted.{IsNonDecreasing};
ghost use Rattle.module_flow.specs.steps.Readers.{IsReader, KeepsReaders, readers};

use std::alloc::Global;
use type_kinds::{List, Memory};

/// For each label, the positions of the functions of the module that read it, or once did.
#[derive(Drop)]
pub struct Readers {
    alloc: Global,
    pub table: List<List<usize>>,
}

impl Readers {
    /// No function reads anything. Takes no memory.
    pub fn new(alloc: Global) -> Readers
        ensures { result.table ≡ [] }
    {
        Readers {
            alloc,
            table: List::new(alloc),
        }
    }

    /// Notes that the function at this position reads these labels.
    pub fn note_all(&mut self, labels: &[u32], position: usize) -> Result<(), Memory>
        ensures kept { KeepsReaders self.old.table self.new.table }
        ensures noted { OnOk result (IsReader self.new.table labels.now position) }
    {
        for label in labels {
            self.note(*label, position)?;
        }
        Ok(())
    }

    // Notes that the function at this position reads this label.
    fn note(&mut self, label: u32, position: usize) -> Result<(), Memory>
        ensures kept { KeepsReaders self.old.table self.new.table }
        ensures noted { OnOk result (Contains (readers self.new.table label) position) }
    {
        let at = label as usize;
        self.reach(at + 1)?;
        if is_last(self.table.at(at).as_slice(), position) {
            return Ok(());
        }
        self.table.add_at(at, position)
    }

    // Extends the table to at least `count` labels.
    fn reach(&mut self, count: usize) -> Result<(), Memory>
        ensures same { (l : ℕ) → readers self.new.table l ≡ readers self.old.table l }
        ensures reached { OnOk result (count ≤ length self.new.table) }
    {
        let missing = count.saturating_sub(self.table.len());
        for _at in 0..missing {
            self.table.add(List::new(self.alloc))?;
        }
        Ok(())
    }

    /// The positions of the functions that read one of these labels, in ascending order. A position may come more than once.
    pub fn of(&self, labels: &[u32]) -> Result<List<usize>, Memory>
        ensures ascending { IfOk result (λ positions. IsNonDecreasing positions) }
        ensures all { IfOk result (λ positions. (l q : ℕ) → Contains labels.now l → Contains (readers self.now.table l) q → Contains positions q) }
    {
        let mut positions = List::new(self.alloc);
        for label in labels {
            self.add_readers(*label, &mut positions)?;
        }
        let mut positions = positions.into_vec();
        positions.sort_unstable();
        Ok(List::from_vec(positions))
    }

    // Adds the positions of the functions that read this label.
    fn add_readers(&self, label: u32, positions: &mut List<usize>) -> Result<(), Memory>
        ensures { OnOk result (positions.new ≡ positions.old ++ readers self.now.table label) }
    {
        match self.table.get(label as usize) {
            Some(list) => add_positions(positions, list.as_slice()),
            None => Ok(()),
        }
    }
}

// Whether the last of these positions is this one.
fn is_last(positions: &[usize], position: usize) -> bool
    ensures { result ≡ true → Contains positions.now position }
{
    match positions.last() {
        Some(last) => *last == position,
        None => false,
    }
}

// Adds positions last.
fn add_positions(positions: &mut List<usize>, more: &[usize]) -> Result<(), Memory>
    ensures { OnOk result (positions.new ≡ positions.old ++ more.now) }
{
    for position in more {
        positions.add(*position)?;
    }
    Ok(())
}
