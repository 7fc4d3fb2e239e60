//! Tables from bytes.
ghost use Rattle.std.specs.Prelude.{◌≡◌, ◌++◌, ◌≤◌, ◌↔◌, false, length, take, IsTrue, IfOk, IfErr, IfSome, IfNone};
ghost use Rattle.std.specs.List.{list_all};
ghost use Rattle.sha2.specs.Sha256.{sha256};
ghost use Rattle.table_file.specs.Faults.{IsFirst};
ghost use Rattle.table_file.specs.Lengths.{has_short_types};
ghost use Rattle.table_file.specs.Spelling.{magic, version, sealed, table_bytes};

mod entries;
mod functions;
mod leaves;
mod lists;

use crate::digests::digest_of;
use crate::faults::TableFault;
use crate::reading::entries::read_next;
use crate::reading::leaves::read_number;
use crate::tables::{MAGIC, Table, VERSION};
use std::alloc::Global;
use type_kinds::List;

/// The table that the bytes spell, or their first fault. The bytes are read once, from left to right,
/// and no room is made for what isn't there.
pub fn read_table(alloc: Global, bytes: &[u8]) -> Result<Table, TableFault>
    ensures spelled { IfOk result (λ table. bytes.now ≡ table_bytes table) }
    ensures short { IfOk result (λ table. IsTrue (list_all has_short_types table.entries)) }
    ensures fault { IfErr result (λ fault. IsFirst fault bytes.now) }
{
    let content = content_of(bytes)?;
    let Some((count, after)) = read_number(content) else {
        unreachable!();
    };
    let mut entries = List::new(alloc);
    let mut rest = after;
    for _ in 0..count {
        let (entry, left) = read_next(alloc, entries.as_slice(), rest)?;
        entries.add(entry)?;
        rest = left;
    }
    if !rest.is_empty() {
        return Err(TableFault::Rest);
    }
    Ok(Table { entries })
}

// What stands between the version and the digest.
fn content_of(bytes: &[u8]) -> Result<&[u8], TableFault>
    ensures spelled { IfOk result (λ content. bytes.now ≡ sealed (magic ++ version ++ content.now)) }
    ensures long { IfOk result (λ content. 4 ≤ length content.now) }
    ensures fault { IfErr result (λ fault. IsFirst fault bytes.now) }
{
    let Some(after) = after_magic(bytes) else {
        return Err(TableFault::NotATable);
    };
    if is_other_version(after) {
        return Err(TableFault::Version);
    }
    if bytes.len() < 46 {
        return Err(TableFault::Torn);
    }
    let (front, trailer) = bytes.split_at(bytes.len() - 32);
    if !is_digest(trailer, front) {
        return Err(TableFault::Torn);
    }
    let (_, content) = front.split_at(10);
    Ok(content)
}

// What stands behind the word that a table begins with.
fn after_magic(bytes: &[u8]) -> Option<&[u8]>
    ensures some { IfSome result (λ after. bytes.now ≡ magic ++ after.now) }
    ensures none { IfNone result (take 8 bytes.now ≡ magic → ⊥) }
{
    bytes.strip_prefix(&MAGIC)
}

// Whether these bytes are the digest of those.
fn is_digest(bytes: &[u8], front: &[u8]) -> bool
    ensures { IsTrue result ↔ (bytes.now ≡ sha256 front.now) }
{
    let digest = digest_of(front);
    bytes == digest.0.as_slice()
}

// Whether there are two bytes, which aren't the version.
fn is_other_version(bytes: &[u8]) -> bool
    ensures other { IsTrue result → (2 ≤ length bytes.now) × (take 2 bytes.now ≡ version → ⊥) }
    ensures same { result ≡ false → 2 ≤ length bytes.now → take 2 bytes.now ≡ version }
{
    if bytes.len() < 2 {
        return false;
    }
    let (front, _) = bytes.split_at(2);
    front != VERSION.as_slice()
}
