ghost use Rattle.std.specs.Prelude.{◌≡◌, ℕ, ◌<◌, ◌≤◌, List, length, take, Option, IfOk, OnOk, OnErr};
ghost use Rattle.da_shelf.specs.Counts.{Rose};
ghost use Rattle.da_shelf.specs.Told.{appended, IsPrefixAppended};

/// A place that output is written to.
pub trait Sink {
    /// All that was written, or `None` where contracts don't see it.
    ghost written: { Self → Option (List ℕ) };

    /// How many writes failed. It never falls.
    ghost faults: { Self → ℕ };

    /// Takes some bytes from the front of a piece that isn't empty, at least one, and answers how
    /// many. Takes no memory.
    ///
    /// `Failed`: the sink took nothing, and has counted it.
    fn write(&mut self, piece: &[u8]) -> Result<usize, SinkFault>
        requires { 0 < length piece.now }
        ensures some { IfOk result (λ n. 0 < n) }
        ensures most { IfOk result (λ n. n ≤ length piece.now) }
        ensures front { IfOk result (λ n. written self.new ≡ appended (written self.old) (take n piece.now)) }
        ensures nothing { OnErr result (written self.new ≡ written self.old) }
        ensures failed { OnErr result (Rose (faults self.old) (faults self.new)) }
        ensures counted { faults self.old ≤ faults self.new };
}

/// Why a sink took nothing.
#[derive(Clone, Copy, Debug, PartialEq, Eq)]
pub enum SinkFault {
    /// The sink failed, and has counted it.
    Failed,
}

/// Writes all bytes: passes the sink all that is left until nothing is left. Takes no memory.
///
/// `Failed`: the sink failed before all was written, and has counted it. A prefix of the bytes was
/// written.
pub fn give<K: Sink>(out: &mut K, bytes: &[u8]) -> Result<(), SinkFault>
    ensures all { OnOk result (K.written out.new ≡ appended (K.written out.old) bytes.now) }
    ensures front { OnErr result (IsPrefixAppended (K.written out.old) (K.written out.new) bytes.now) }
    ensures failed { OnErr result (Rose (K.faults out.old) (K.faults out.new)) }
    ensures counted { K.faults out.old ≤ K.faults out.new }
{
    let mut done = 0;
    while done < bytes.len() {
        done += out.write(&bytes[done..])?;
    }
    Ok(())
}
