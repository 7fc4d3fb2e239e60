// What stands first in bytes: numbers, names and digests. Each reader gives what it read and what
// stands behind it, or nothing where the bytes don't begin so.
ghost use Rattle.std.specs.Prelude.{◌≡◌, ◌++◌, ◌<◌, ◌^◌, length, IfOk, IfSome, IfNone};
ghost use Rattle.table_file.specs.Spelling.{four_bytes, text_bytes};
ghost use Rattle.table_file.specs.steps.Reads.{anything, Found, NoneFirst};

use crate::digests::Digest;
use std::alloc::Global;
use type_kinds::{Atom, Memory};

/// A number in four bytes.
pub fn read_number(bytes: &[u8]) -> Option<(u32, &[u8])>
    ensures found { IfSome result (λ p. Found anything four_bytes bytes.now p.0 p.1.now) }
    ensures none { IfNone result (NoneFirst anything four_bytes bytes.now) }
    ensures short { IfNone result (length bytes.now < 4) }
{
    let Some((front, rest)) = bytes.split_first_chunk() else {
        return None;
    };
    Some((u32::from_be_bytes(*front), rest))
}

/// Lines, or what a name has.
pub fn read_text(bytes: &[u8]) -> Option<(&[u8], &[u8])>
    ensures found { IfSome result (λ p. Found anything text_bytes bytes.now p.0.now p.1.now) }
    ensures short { IfSome result (λ p. length p.0.now < 2 ^ 32) }
    ensures none { IfNone result (NoneFirst anything text_bytes bytes.now) }
{
    let Some((count, after)) = read_number(bytes) else {
        return None;
    };
    let len = count as usize;
    if after.len() < len {
        return None;
    }
    Some(after.split_at(len))
}

/// A name.
pub fn read_name(alloc: Global, bytes: &[u8]) -> Result<Option<(Atom, &[u8])>, Memory>
    ensures found { IfOk result (λ read. IfSome read (λ p. Found anything text_bytes bytes.now p.0 p.1.now)) }
    ensures none { IfOk result (λ read. IfNone read (NoneFirst anything text_bytes bytes.now)) }
{
    let Some((text, rest)) = read_text(bytes) else {
        return Ok(None);
    };
    let name = Atom::new(alloc, text)?;
    Ok(Some((name, rest)))
}

/// As many bytes as a digest has.
pub fn read_digest(bytes: &[u8]) -> Option<(Digest, &[u8])>
    ensures found { IfSome result (λ p. bytes.now ≡ p.0.0 ++ p.1.now) }
    ensures whole { IfSome result (λ p. length p.0.0 ≡ 32) }
    ensures none { IfNone result (length bytes.now < 32) }
{
    let Some((front, rest)) = bytes.split_first_chunk() else {
        return None;
    };
    Some((Digest(*front), rest))
}
