//! Facts that a client proves from the clauses of `table_file`.
ghost use Rattle.std.specs.Prelude.{◌≡◌, false, Err, IfOk};
ghost use Rattle.table_file.specs.Lengths.{is_short_table};
ghost use Rattle.table_file.specs.declared.faults.WriteFault.TheVariants.{TooLong};

use std::alloc::Global;
use table_file::{Table, TableFault, WriteFault, read_table, table_laws, write_table};

/// A table, written and read again: it is the same one. `TooLong` comes exactly where it can't be
/// written.
pub fn written_and_read(alloc: Global, table: &Table) -> Result<Table, WriteFault>
    ensures same { IfOk result (λ back. back ≡ table.now) }
    ensures too_long { result ≡ Err TooLong → is_short_table table.now ≡ false }
{
    table_laws();
    let bytes = match write_table(alloc, table) {
        Ok(bytes) => bytes,
        Err(fault) => return Err(fault),
    };
    match read_table(alloc, bytes.as_slice()) {
        Ok(back) => Ok(back),
        Err(TableFault::Memory) => Err(WriteFault::Memory),
        Err(_) => unreachable!(),
    }
}
