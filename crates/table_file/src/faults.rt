//! Why a table isn't read or written.
ghost use Rattle.std.specs.Prelude.{◌≡◌};
ghost use Rattle.table_file.specs.declared.faults.TableFault.TheVariants as reading;

use type_kinds::Memory as NoMemory;

/// Why bytes aren't read as a table: their first fault, in this order.
#[derive(Clone, Copy, Debug, PartialEq, Eq)]
pub enum TableFault {
    /// Number 18: the bytes don't begin as a table does.
    NotATable,
    /// Number 19: they are of a version that isn't read here.
    Version,
    /// Number 20: bytes are missing, or the digest at the end isn't that of the bytes before it.
    Torn,
    /// Number 21: the first wrong entry has a name that isn't greater than the one before.
    Order,
    /// Number 22: the first wrong entry is no entry.
    BadEntry,
    /// Number 23: bytes stand behind the last entry.
    Rest,
    /// There was no memory left.
    Memory,
}

/// Why a table isn't written.
#[derive(Clone, Copy, Debug, PartialEq, Eq)]
pub enum WriteFault {
    /// Number 25: a count or a length doesn't fit into four bytes.
    TooLong,
    /// There was no memory left.
    Memory,
}

impl From<NoMemory> for TableFault {
    ghost from_gives = { λ _ e. e ≡ reading.Memory };

    fn from(_: NoMemory) -> TableFault {
        TableFault::Memory
    }
}
