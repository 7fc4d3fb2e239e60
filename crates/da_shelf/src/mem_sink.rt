ghost use Rattle.std.specs.Prelude.{◌≡◌, ◌+◌, ◌++◌, ◌<◌, ◌≤◌, ◌↔◌, length, IfOk};
ghost use Rattle.std.specs.Prelude.{OnErr, IsErr, IsTrue, Some, vec_len, vec_capacity};
ghost use Rattle.da_shelf.specs.SinkState.{empty_sink, write_fails, bytes_taken, after_taking, after_fault};

use crate::listed::is_listed;
use crate::sink::{Sink, SinkFault};
use std::alloc::Global;
use std::marker::Model;
use type_kinds::{List, Memory};

/// A sink in memory that takes a little at a time and fails at chosen writes, for tests.
#[derive(Drop)]
pub struct MemSink {
    written: Vec<u8>,
    cap: usize,
    room: usize,
    writes: u64,
    faults: u64,
    fail_writes: List<u32>,
}

impl Model for MemSink {
    ghost use Rattle.std.specs.Prelude.{◌+◌, ◌<◌, ◌≤◌, vec_len, vec_capacity};
    ghost use Rattle.da_shelf.specs.SinkState.{SinkState, sink_code};

    ghost Value = { SinkState };

    ghost coded = { sink_code };

    ghost view = { λ it. record {
      written = it.written.items;
      cap = it.cap;
      room = it.room;
      writes = it.writes;
      faults = it.faults;
      fail_writes = it.fail_writes;
    } };

    ghost invariant = { λ it. (0 < it.cap) × (vec_len it.written + it.room ≤ vec_capacity it.written) };
}

impl MemSink {
    /// A sink that takes at most `cap` bytes, one or more, in one write, and `room` bytes in all.
    /// Its writes are numbered from 1, and exactly the listed ones fail, and those that find no room
    /// left. It reserves the whole room, so its writes take no memory.
    pub fn new(
        alloc: Global,
        cap: u32,
        room: u32,
        fail_writes: List<u32>,
    ) -> Result<MemSink, Memory>
        requires { 0 < cap }
        ensures { IfOk result (λ sink. sink ≡ empty_sink cap room fail_writes) }
    {
        let room = room as usize;
        match Vec::with_capacity(alloc, room) {
            Ok(written) => Ok(MemSink {
                written,
                cap: cap as usize,
                room,
                writes: 0,
                faults: 0,
                fail_writes,
            }),
            Err(_) => Err(Memory),
        }
    }

    /// All that was written. Takes no memory.
    pub fn bytes(&self) -> &[u8]
        ensures { result.now ≡ self.now.written }
    {
        self.written.as_slice()
    }
}

impl Sink for MemSink {
    ghost written = { λ sink. Some sink.written };

    ghost faults = { λ sink. sink.faults };

    fn write(&mut self, piece: &[u8]) -> Result<usize, SinkFault>
        requires { 0 < length piece.now }
        ensures failed { IsErr result ↔ IsTrue (write_fails self.old) }
        ensures taken { IfOk result (λ n. n ≡ bytes_taken self.old piece.now) }
        ensures some { IfOk result (λ n. 0 < n) }
        ensures after { IfOk result (λ n. self.new ≡ after_taking self.old n piece.now) }
        ensures after_fault { OnErr result (self.new ≡ after_fault self.old) }
        ensures counted { self.old.faults ≤ self.new.faults }
    {
        self.writes = self.writes.saturating_add(1);
        if self.room == 0 || is_listed(&self.fail_writes, self.writes) {
            self.faults = self.faults.saturating_add(1);
            return Err(SinkFault::Failed);
        }
        let n = piece.len().min(self.cap).min(self.room);
        fill(&mut self.written, &piece[..n]);
        self.room -= n;
        Ok(n)
    }
}

// Adds bytes for which there is room.
fn fill(written: &mut Vec<u8>, bytes: &[u8])
    requires { vec_len written.old + length bytes.now ≤ vec_capacity written.old }
    ensures items { written.new.items ≡ written.old.items ++ bytes.now }
    ensures capacity { vec_capacity written.old ≤ vec_capacity written.new }
{
    match written.extend_from_slice(bytes) {
        Ok(()) => {}
        Err(_) => unreachable!(),
    }
}
