ghost use Rattle.std.specs.Prelude.{◌≡◌, ℕ, List, ◌++◌, false, Some, Err, IfOk};
ghost use Rattle.std.specs.Option.{IsSomeAnd};
ghost use Rattle.type_lattice.specs.Types.{Type4, is_none};
ghost use Rattle.type_text.specs.declared.reading.TextFault.TheVariants.{NotAType};
ghost use Rattle.type_text.specs.Texts.{text_of};
ghost use Rattle.type_text.specs.Words.{TypeStop};

use crate::leaves::after_word;
use crate::printing::print;
use crate::words::read_type;
use std::alloc::Global;
use type_kinds::{Bytes, Memory};
use type_lattice::Ty;

/// Why a text isn't read.
#[derive(Clone, Copy, Debug, PartialEq, Eq)]
pub enum TextFault {
    /// Number 15: the bytes are the text of no type.
    NotAType,
    /// There was no memory left.
    Memory,
}

impl From<Memory> for TextFault {
    fn from(_: Memory) -> TextFault {
        TextFault::Memory
    }
}

/// The type whose text this is. Each type has one text, and no two types have the same, so what was
/// printed is read back as itself. `NotAType` comes exactly where the bytes are the text of no type.
pub fn read(alloc: Global, text: &[u8]) -> Result<Ty, TextFault>
    ensures ok { IfOk result (λ t. text.now ≡ text_of t) }
    ensures same { IfOk result (λ t. (s : Type4) → text.now ≡ text_of s → t ≡ s) }
    ensures not { result ≡ Err NotAType → (t : Type4) → text.now ≡ text_of t → ⊥ }
{
    match whole(alloc, text) {
        Ok(None) => Err(TextFault::NotAType),
        Ok(Some(t)) => printed_again(alloc, t, text),
        Err(Memory) => Err(TextFault::Memory),
    }
}

// The type that the whole text is, where it is the text of one. Other texts may be read too.
fn whole(alloc: Global, text: &[u8]) -> Result<Option<Ty>, Memory>
    ensures { IfOk result (λ r. (t : Type4) → text.now ≡ text_of t → r ≡ Some t) }
{
    match read_front(alloc, text)? {
        None => Ok(None),
        Some((t, rest)) => {
            if rest.is_empty() {
                Ok(Some(t))
            } else {
                Ok(None)
            }
        }
    }
}

/// The type that the text begins with, and what stands behind it: where the text is that of a type, with nothing behind it, a
/// comma or a bracket that closes, it is this type. Other texts may be read too, so who reads one prints what was read again, and
/// compares. `Memory` if allocation fails.
pub fn read_front<'a>(alloc: Global, text: &'a [u8]) -> Result<Option<(Ty, &'a [u8])>, Memory>
    ensures { IfOk result (λ r. (t : Type4) (rest : List ℕ) → TypeStop rest → text.now ≡ text_of t ++ rest
        → IsSomeAnd r (λ p. (p.0 ≡ t) × (p.1.now ≡ rest))) }
{
    match after_word(text, b"none()") {
        Some(rest) => Ok(Some((Ty::none(), rest))),
        None => read_some(alloc, text),
    }
}

// The same for types that have a value.
fn read_some<'a>(alloc: Global, text: &'a [u8]) -> Result<Option<(Ty, &'a [u8])>, Memory>
    ensures { IfOk result (λ r. (t : Type4) (rest : List ℕ) → is_none t ≡ false → TypeStop rest → text.now ≡ text_of t ++ rest
        → IsSomeAnd r (λ p. (p.0 ≡ t) × (p.1.now ≡ rest))) }
{
    match read_type(alloc, 4, text)? {
        None => Ok(None),
        Some((node, rest)) => Ok(Some((Ty::of_node(node), rest))),
    }
}

// The type, where this is its text.
fn printed_again(alloc: Global, t: Ty, text: &[u8]) -> Result<Ty, TextFault>
    ensures ok { IfOk result (λ same. (same ≡ t) × (text.now ≡ text_of t)) }
    ensures not { result ≡ Err NotAType → text.now ≡ text_of t → ⊥ }
{
    let mut again = Bytes::new(alloc);
    match print(&t, &mut again) {
        Ok(()) if again.as_slice() == text => Ok(t),
        Ok(()) => Err(TextFault::NotAType),
        Err(Memory) => Err(TextFault::Memory),
    }
}
