//! Bytes of tables, made piece by piece.
use std::alloc::Global;
use table_file::{Digest, TableFault, digest_of, read_table};
use type_kinds::{Bytes, Memory};

/// What a table's bytes begin with.
pub const HEAD: [u8; 10] = [0x44, 0x41, 0x54, 0x41, 0x42, 0x4c, 0x45, 0x0a, 0x00, 0x03];

/// The content behind the head, and the digest of both behind that.
pub fn sealed(alloc: Global, content: &[u8]) -> Result<Bytes, Memory> {
    let mut out = Bytes::new(alloc);
    out.append(&HEAD)?;
    out.append(content)?;
    let Digest(digest) = digest_of(out.as_slice());
    out.append(&digest)?;
    Ok(out)
}

/// The number of the bytes' first fault; 0 where they are a table, and 5 where memory is wanting.
pub fn fault_number(alloc: Global, bytes: &[u8]) -> u8 {
    match read_table(alloc, bytes) {
        Ok(_) => 0,
        Err(TableFault::NotATable) => 18,
        Err(TableFault::Version) => 19,
        Err(TableFault::Torn) => 20,
        Err(TableFault::Order) => 21,
        Err(TableFault::BadEntry) => 22,
        Err(TableFault::Rest) => 23,
        Err(TableFault::Memory) => 5,
    }
}

/// How often each number came.
#[derive(Clone, Copy, Debug, PartialEq, Eq)]
pub struct Counts {
    pub whole: u32,
    pub not_a_table: u32,
    pub version: u32,
    pub torn: u32,
    pub order: u32,
    pub bad_entry: u32,
    pub rest: u32,
    pub memory: u32,
}

impl Counts {
    /// Nothing yet.
    pub fn new() -> Counts {
        Counts {
            whole: 0,
            not_a_table: 0,
            version: 0,
            torn: 0,
            order: 0,
            bad_entry: 0,
            rest: 0,
            memory: 0,
        }
    }

    /// One more.
    pub fn count(&mut self, number: u8) {
        let counter = match number {
            0 => &mut self.whole,
            18 => &mut self.not_a_table,
            19 => &mut self.version,
            20 => &mut self.torn,
            21 => &mut self.order,
            22 => &mut self.bad_entry,
            23 => &mut self.rest,
            _ => &mut self.memory,
        };
        *counter = counter.saturating_add(1);
    }
}
