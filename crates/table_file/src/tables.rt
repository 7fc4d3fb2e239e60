//! The table.
ghost use Rattle.std.specs.Prelude.{◌≡◌, [], IsTrue, map};
ghost use Rattle.table_file.specs.Order.{rises, is_name_before};

use crate::entries::Entry;
use std::alloc::Global;
use type_kinds::List;

/// What the bytes of a table begin with.
pub const MAGIC: [u8; 8] = *b"DATABLE\n";

/// The version that is read and written, behind that.
pub const VERSION: [u8; 2] = [0, 3];

/// What is known of modules, an entry for each. The entries rise strictly by name.
#[derive(Drop)]
pub struct Table {
    pub entries: List<Entry>,
    pub ghost entries_rise: { IsTrue (rises is_name_before (map (λ e. e.name) entries)) },
}

impl Table {
    /// The table of no modules. Takes no memory.
    pub fn empty(alloc: Global) -> Table
        ensures { result.entries ≡ [] }
    {
        Table {
            entries: List::new(alloc),
        }
    }
}
