ghost use Rattle.std.specs.Prelude.{◌≡◌};
ghost use Rattle.type_bytes.specs.declared.faults.BytesFault.TheVariants.{Memory as OutOfMemory};

use type_kinds::Memory;

/// Why no type is taken.
#[derive(Clone, Copy, Debug, PartialEq, Eq)]
pub enum BytesFault {
    /// Number 16: the bytes are a proper prefix of a shape.
    Short,
    /// Number 17: the bytes begin with no type's spelling, and they aren't `Short`.
    NotCanonical,
    /// There was no memory left.
    Memory,
}

impl From<Memory> for BytesFault {
    ghost from_gives = { λ _ e. e ≡ OutOfMemory };

    fn from(_: Memory) -> BytesFault {
        BytesFault::Memory
    }
}

// Why bytes begin with no shape.
#[derive(Clone, Copy, Debug, PartialEq, Eq)]
pub enum ShapeFault {
    // They are a proper prefix of one.
    Short,
    // No shape begins with them.
    Broken,
}
