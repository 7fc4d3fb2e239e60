ghost use Rattle.std.specs.Prelude.{◌≡◌, ◌↔◌, ◌≤◌, IfOk, OnOk, OnErr, IsErrOf, IsTrue, Some, None, option_copied};
ghost use Rattle.std.specs.FinMap.{get};
ghost use Rattle.da_shelf.specs.Counts.{raised};
ghost use Rattle.da_shelf.specs.Reads.{IsMemoryRead};
ghost use Rattle.da_shelf.specs.ShelfState.{empty_shelf, holding, read_fails, after_read, replace_fails, after_replace};

use crate::listed::is_listed;
use crate::shelf::{Shelf, ShelfFault};
use std::alloc::Global;
use std::collections::VecDeque;
use std::marker::Model;
use type_kinds::{Bytes, List, Memory};

/// A shelf in memory that fails at chosen reads and replaces, for tests. It keeps the allocator that
/// it is made with.
#[derive(Drop)]
pub struct MemShelf {
    alloc: Global,
    // each name with its bytes, the newest first; what is older under the same name isn't seen
    files: VecDeque<(Bytes, Bytes)>,
    reads: u64,
    read_faults: u64,
    replaces: u64,
    replace_faults: u64,
    fail_reads: List<u32>,
    fail_replaces: List<u32>,
}

impl Model for MemShelf {
    ghost use Rattle.std.specs.FinMap.{from_entries};
    ghost use Rattle.da_shelf.specs.ShelfState.{ShelfState, shelf_code};

    ghost Value = { ShelfState };

    ghost coded = { shelf_code };

    ghost view = { λ it. record {
      held = from_entries it.files.items;
      reads = it.reads;
      read_faults = it.read_faults;
      replaces = it.replaces;
      replace_faults = it.replace_faults;
      fail_reads = it.fail_reads;
      fail_replaces = it.fail_replaces;
    } };
}

impl MemShelf {
    /// A shelf that holds nothing. Its reads are numbered from 1, and exactly the listed ones fail,
    /// whatever is held; so are its replaces, apart from the reads, for the second list. Takes no
    /// memory.
    pub fn new(alloc: Global, fail_reads: List<u32>, fail_replaces: List<u32>) -> MemShelf
        ensures { result ≡ empty_shelf fail_reads fail_replaces }
    {
        MemShelf {
            alloc,
            files: VecDeque::new(alloc),
            reads: 0,
            read_faults: 0,
            replaces: 0,
            replace_faults: 0,
            fail_reads,
            fail_replaces,
        }
    }

    /// Puts bytes under a name, in place of what was there. It is no replace and counts nothing.
    /// If allocation fails the shelf is as before.
    pub fn put(&mut self, name: &str, bytes: &[u8]) -> Result<(), Memory>
        ensures ok { OnOk result (self.new ≡ holding self.old name.now bytes.now) }
        ensures err { OnErr result (self.new ≡ self.old) }
    {
        let file = (
            List::from_slice(self.alloc, name.as_bytes())?,
            List::from_slice(self.alloc, bytes)?,
        );
        match self.files.push_front(file) {
            Ok(()) => Ok(()),
            Err(_) => Err(Memory),
        }
    }

    /// What is held under a name, and `None` exactly where nothing is. Takes no memory.
    pub fn look(&self, name: &str) -> Option<&[u8]>
        ensures { option_copied result ≡ get self.now.held name.now }
    {
        for (key, bytes) in &self.files {
            if name.as_bytes() == key.as_slice() {
                return Some(bytes.as_slice());
            }
        }
        None
    }
}

impl Shelf for MemShelf {
    ghost held = { λ shelf. Some shelf.held };

    ghost told = { λ before now read. IsMemoryRead before now read };

    ghost reads = { λ shelf. shelf.reads };

    ghost read_faults = { λ shelf. shelf.read_faults };

    ghost replace_faults = { λ shelf. shelf.replace_faults };

    fn read(&mut self, name: &str) -> Result<Vec<u8>, ShelfFault>
        ensures read { IfOk result (λ bytes. get self.old.held name.now ≡ Some bytes.items) }
        ensures missing { IsErrOf result ShelfFault.Missing → get self.old.held name.now ≡ None }
        ensures failed { IsErrOf result ShelfFault.Failed ↔ IsTrue (read_fails self.old) }
        ensures after { self.new ≡ after_read self.old }
        ensures counted { self.old.read_faults ≤ self.new.read_faults }
    {
        self.reads = self.reads.saturating_add(1);
        if is_listed(&self.fail_reads, self.reads) {
            self.read_faults = self.read_faults.saturating_add(1);
            return Err(ShelfFault::Failed);
        }
        answer(self.alloc, self.look(name))
    }

    fn replace(&mut self, name: &str, bytes: &[u8]) -> Result<(), ShelfFault>
        ensures replaced { OnOk result (self.new ≡ after_replace (holding self.old name.now bytes.now)) }
        ensures kept { OnErr result (self.new ≡ after_replace self.old) }
        ensures failed { IsErrOf result ShelfFault.Failed ↔ IsTrue (replace_fails self.old) }
        ensures present { ¬ (IsErrOf result ShelfFault.Missing) }
        ensures counted { self.old.replace_faults ≤ self.new.replace_faults }
    {
        self.replaces = self.replaces.saturating_add(1);
        if is_listed(&self.fail_replaces, self.replaces) {
            self.replace_faults = self.replace_faults.saturating_add(1);
            return Err(ShelfFault::Failed);
        }
        match self.put(name, bytes) {
            Ok(()) => Ok(()),
            Err(Memory) => Err(ShelfFault::Memory),
        }
    }
}

// The answer of a read that doesn't fail, from what is held.
fn answer(alloc: Global, held: Option<&[u8]>) -> Result<Vec<u8>, ShelfFault>
    ensures read { IfOk result (λ bytes. option_copied held.entry ≡ Some bytes.items) }
    ensures missing { IsErrOf result ShelfFault.Missing → option_copied held.entry ≡ None }
    ensures working { ¬ (IsErrOf result ShelfFault.Failed) }
{
    match held {
        None => Err(ShelfFault::Missing),
        Some(bytes) => match Vec::from_slice(alloc, bytes) {
            Ok(copy) => Ok(copy),
            Err(_) => Err(ShelfFault::Memory),
        },
    }
}
