ghost use Rattle.std.specs.Prelude.{◌≡◌, ◌++◌, ◌<◌, ◌≤◌, length, drop, Err, IfOk, IsTrue};
ghost use Rattle.type_bytes.specs.declared.faults.BytesFault.TheVariants.{Short, NotCanonical, Memory as OutOfMemory};
ghost use Rattle.type_bytes.specs.ShortNames.{has_short_names};
ghost use Rattle.type_bytes.specs.Shapes.{IsShort, BeginNoType};
ghost use Rattle.type_bytes.specs.Spelling.{bytes_of};

use crate::faults::{BytesFault, ShapeFault};
use crate::reading::read_type;
use crate::shapes::skip_type;
use std::alloc::Global;
use type_lattice::Ty;

/// The type whose bytes stand at `from`, and the position after them. Bytes may follow. `Short` comes
/// where the bytes from there on are a proper prefix of a shape of the layout, and `NotCanonical` where
/// they begin with the spelling of no type and aren't `Short`. No length or count in the bytes takes
/// memory for more than the bytes that are there.
pub fn take(alloc: Global, bytes: &[u8], from: usize) -> Result<(Ty, usize), BytesFault>
    requires within { from ≤ length bytes.now }
    ensures ok { IfOk result (λ p. drop from bytes.now ≡ bytes_of p.0 ++ drop p.1 bytes.now) }
    ensures names { IfOk result (λ p. IsTrue (has_short_names p.0)) }
    ensures after { IfOk result (λ p. (from < p.1) × (p.1 ≤ length bytes.now)) }
    ensures short { result ≡ Err Short → IsShort (drop from bytes.now) }
    ensures none { result ≡ Err NotCanonical → BeginNoType (drop from bytes.now) }
    ensures whole { result ≡ Err NotCanonical → IsShort (drop from bytes.now) → ⊥ }
{
    let (t, rest) = take_first(alloc, &bytes[from..])?;
    Ok((t, bytes.len() - rest.len()))
}

// The type that the bytes begin with, and what is left.
fn take_first(alloc: Global, bytes: &[u8]) -> Result<(Ty, &[u8]), BytesFault>
    ensures ok { IfOk result (λ p. bytes.now ≡ bytes_of p.0 ++ p.1.now) }
    ensures names { IfOk result (λ p. IsTrue (has_short_names p.0)) }
    ensures shorter { IfOk result (λ p. length p.1.now < length bytes.now) }
    ensures short { result ≡ Err Short → IsShort bytes.now }
    ensures none { result ≡ Err NotCanonical → BeginNoType bytes.now }
    ensures whole { result ≡ Err NotCanonical → IsShort bytes.now → ⊥ }
{
    match read_type(alloc, bytes) {
        Ok((node, rest)) => Ok((Ty::of_node(node), rest)),
        Err(BytesFault::Memory) => Err(BytesFault::Memory),
        Err(BytesFault::Short) => Err(why_none(bytes)),
        Err(BytesFault::NotCanonical) => Err(why_none(bytes)),
    }
}

// Why no type is taken of bytes that begin with none.
fn why_none(bytes: &[u8]) -> BytesFault
    ensures short { result ≡ Short → IsShort bytes.now }
    ensures whole { result ≡ NotCanonical → IsShort bytes.now → ⊥ }
    ensures memory { result ≡ OutOfMemory → ⊥ }
{
    match skip_type(bytes) {
        Err(ShapeFault::Short) => BytesFault::Short,
        Err(ShapeFault::Broken) => BytesFault::NotCanonical,
        Ok(_) => BytesFault::NotCanonical,
    }
}
