ghost use Rattle.std.specs.Prelude.{◌≡◌, ℕ, ◌≤◌, Option, IfOk, IfErr, OnOk, IsErrOf};
ghost use Rattle.da_shelf.specs.Counts.{Rose, raised};
ghost use Rattle.da_shelf.specs.Reads.{ToldRead, gave, gave_none};
ghost use Rattle.da_shelf.specs.Told.{Files, Holds, Lacks, replaced, IsOldOrNew};

/// A place where files are kept, by name.
pub trait Shelf {
    /// What is held under each name, or `None` where contracts don't see it.
    ghost held: { Self → Option Files };

    /// What contracts see of one read: the state before it, the state after it, and the name with what was answered.
    ghost told: { Self → Self → ToldRead → Type 0 };

    /// How many reads there were. It rises with each, to the last value of a count, and else stays as it is.
    ghost reads: { Self → ℕ };

    /// How many reads failed. It never falls.
    ghost read_faults: { Self → ℕ };

    /// How many replaces failed. It never falls.
    ghost replace_faults: { Self → ℕ };

    /// Reads all bytes that are held under a name.
    ///
    /// `Missing`: the name isn't held. `Failed`: the shelf failed, and has counted it. `Memory`: there
    /// is no memory left.
    fn read(&mut self, name: &str) -> Result<Vec<u8>, ShelfFault>
        ensures read { IfOk result (λ bytes. Holds (held self.old) name.now bytes.items) }
        ensures missing { IsErrOf result ShelfFault.Missing → Lacks (held self.old) name.now }
        ensures failed { IsErrOf result ShelfFault.Failed → Rose (read_faults self.old) (read_faults self.new) }
        ensures told { IfOk result (λ bytes. told self.old self.new (gave name.now bytes.items)) }
        ensures told_fault { IfErr result (λ fault. told self.old self.new (gave_none name.now fault)) }
        ensures one_more { reads self.new ≡ raised (reads self.old) }
        ensures held { held self.new ≡ held self.old }
        ensures replaces { replace_faults self.new ≡ replace_faults self.old }
        ensures counted { read_faults self.old ≤ read_faults self.new };

    /// Puts bytes under a name, in place of what was held there. It never answers `Missing`, and
    /// other names keep what they hold.
    ///
    /// `Failed`: the shelf failed, and has counted it; the name holds its old bytes or the new ones,
    /// whole. `Memory`: there is no memory left, and the name holds its old bytes.
    fn replace(&mut self, name: &str, bytes: &[u8]) -> Result<(), ShelfFault>
        ensures replaced { OnOk result (held self.new ≡ replaced (held self.old) name.now bytes.now) }
        ensures present { ¬ (IsErrOf result ShelfFault.Missing) }
        ensures failed { IsErrOf result ShelfFault.Failed → Rose (replace_faults self.old) (replace_faults self.new) }
        ensures whole { IsErrOf result ShelfFault.Failed → IsOldOrNew (held self.old) (held self.new) name.now bytes.now }
        ensures memory { IsErrOf result ShelfFault.Memory → held self.new ≡ held self.old }
        ensures reads { read_faults self.new ≡ read_faults self.old }
        ensures no_read { reads self.new ≡ reads self.old }
        ensures counted { replace_faults self.old ≤ replace_faults self.new };
}

/// Why a shelf gave no bytes, or took none.
#[derive(Clone, Copy, Debug, PartialEq, Eq)]
pub enum ShelfFault {
    /// The name isn't held.
    Missing,
    /// The shelf failed, and has counted it.
    Failed,
    /// There is no memory left.
    Memory,
}
