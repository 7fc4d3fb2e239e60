ghost use Rattle.std.specs.Prelude.{◌≡◌, ◌<◌, ◌≤◌, length, None, IfOk, IfSome, OnOk, OnErr};
ghost use Rattle.da_shelf.specs.Counts.{raised};

use crate::sink::{Sink, SinkFault};
use std::io::ErrorKind;
use std::marker::Model;
use type_kinds::Memory;

// How often a write is tried that a signal interrupts.
const TRIES: u32 = 64;

/// The standard output. Contracts see the count of failed writes, and not what was written. It keeps
/// the runtime that it is made with.
#[derive(Drop)]
pub struct StdoutSink<R> {
    rt: R,
    faults: u64,
}

impl<R> Model for StdoutSink<R> {
    ghost use Rattle.std.specs.Prelude.{ℕ};

    ghost Value = { ℕ };

    ghost view = { λ it. it.faults };
}

impl<R> StdoutSink<R> {
    /// The standard output, of which no write has failed yet.
    pub fn new(rt: R) -> Result<StdoutSink<R>, Memory>
        ensures { IfOk result (λ sink. sink ≡ 0) }
    {
        Ok(StdoutSink { rt, faults: 0 })
    }
}

impl<R: Print> Sink for StdoutSink<R> {
    ghost written = { λ _. None };

    ghost faults = { λ sink. sink };

    /// Writes bytes from the front of a piece, which need not be text, and answers how many.
    ///
    /// `Failed`, counted: an error of the host, or no byte written.
    fn write(&mut self, piece: &[u8]) -> Result<usize, SinkFault>
        requires { 0 < length piece.now }
        ensures some { IfOk result (λ n. 0 < n) }
        ensures most { IfOk result (λ n. n ≤ length piece.now) }
        ensures working { OnOk result (self.new ≡ self.old) }
        ensures failed { OnErr result (self.new ≡ raised self.old) }
        ensures counted { self.old ≤ self.new }
    {
        match take_some(&self.rt, piece) {
            Some(n) => Ok(n),
            None => {
                self.faults = self.faults.saturating_add(1);
                Err(SinkFault::Failed)
            }
        }
    }
}

// How many bytes the host took, or `None` where it failed or took none.
fn take_some<R: Print>(rt: &R, piece: &[u8]) -> Option<usize>
    ensures some { IfSome result (λ n. 0 < n) }
    ensures most { IfSome result (λ n. n ≤ length piece.now) }
{
    for _ in 0..TRIES {
        match rt.write_some(piece) {
            Ok(0) => return None,
            Ok(n) => return Some(n),
            Err(error) => {
                if error.kind() != ErrorKind::Interrupted {
                    return None;
                }
            }
        }
    }
    None
}
