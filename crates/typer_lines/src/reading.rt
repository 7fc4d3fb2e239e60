//! Lines as typings.
ghost use Rattle.std.specs.Prelude.{◌≡◌, ℕ, ◌+◌, ◌≤◌, List, [], ◌∷◌, ◌++◌, codes, length, Some, Err, IfOk, IfSome};
ghost use Rattle.std.specs.Option.{IsSomeAnd};
ghost use Rattle.core_ast.specs.declared.syntax.FunName.{FunName as TheName};
ghost use Rattle.cons_tree.specs.declared.parts.Sig.{Sig as TheSig};
ghost use Rattle.type_lattice.specs.Types.{Type4};
ghost use Rattle.type_text.specs.Texts.{text_of};
ghost use Rattle.type_text.specs.Words.{WordStop};
ghost use Rattle.typer_lines.specs.declared.reading.LineFault.TheVariants.{NotALine};
ghost use Rattle.typer_lines.specs.declared.typing.Typing.{Typing as TheTyping};
ghost use Rattle.typer_lines.specs.declared.typing.TheConstants.{MOST_ARGUMENTS};
ghost use Rattle.typer_lines.specs.Lines.{IsTyping, name_text, signature_text, typing_line};
ghost use Rattle.typer_lines.specs.steps.Reads.{ReadsOne, ReadsTypes, ReadsMore};

use crate::typing::{MOST_ARGUMENTS, Typing};
use cons_tree::Sig;
use core_ast::FunName;
use std::alloc::Global;
use type_kinds::{Bytes, List, Memory};
use type_lattice::{Ty, decision_laws};
use type_text::{after_word, read_arity, read_front, read_quoted};

/// Why a line isn't read.
#[derive(Clone, Copy, Debug, PartialEq, Eq)]
pub enum LineFault {
    /// Number 28: the bytes are the line of no typing.
    NotALine,
    /// There was no memory left.
    Memory,
}

/// The typing whose line these bytes are. Each typing has one line, and no two typings have the same. `NotALine` comes exactly where
/// the bytes are the line of no typing.
pub fn read_line(alloc: Global, line: &[u8]) -> Result<Typing, LineFault>
    ensures ok { IfOk result (λ t. IsTyping t × (line.now ≡ typing_line t)) }
    ensures same { IfOk result (λ t. (s : TheTyping) → IsTyping s → line.now ≡ typing_line s → t ≡ s) }
    ensures not { result ≡ Err NotALine → (t : TheTyping) → IsTyping t → line.now ≡ typing_line t → ⊥ }
{
    match candidate(alloc, line) {
        Ok(None) => Err(LineFault::NotALine),
        Ok(Some(typing)) => printed_again(alloc, typing, line),
        Err(Memory) => Err(LineFault::Memory),
    }
}

// The typing, where this is its line.
fn printed_again(alloc: Global, typing: Typing, line: &[u8]) -> Result<Typing, LineFault>
    requires { IsTyping typing }
    ensures ok { IfOk result (λ same. (same ≡ typing) × IsTyping same × (line.now ≡ typing_line same)) }
    ensures not { result ≡ Err NotALine → line.now ≡ typing_line typing → ⊥ }
{
    let mut again = Bytes::new(alloc);
    match typing.append_line(&mut again) {
        Ok(()) if again.as_slice() == line => Ok(typing),
        Ok(()) => Err(LineFault::NotALine),
        Err(Memory) => Err(LineFault::Memory),
    }
}

// The typing that the bytes are the line of, where they are the line of one. Other bytes may be read too.
fn candidate(alloc: Global, line: &[u8]) -> Result<Option<Typing>, Memory>
    ensures complete { IfOk result (λ r. (t : TheTyping) → IsTyping t → line.now ≡ typing_line t → r ≡ Some t) }
    ensures typing { IfOk result (λ r. IfSome r IsTyping) }
{
    let Some((home, text)) = read_quoted(alloc, line)? else {
        return Ok(None);
    };
    let Some((name, text)) = read_name(alloc, text)? else {
        return Ok(None);
    };
    let Some(sig) = read_signature(alloc, name.arity, text)? else {
        return Ok(None);
    };
    Ok(Some(Typing { home, name, sig }))
}

// The name of a function behind its module, and what stands behind it.
fn read_name(alloc: Global, text: &[u8]) -> Result<Option<(FunName, &[u8])>, Memory>
    ensures complete { IfOk result (λ r. (f : TheName) (rest : List ℕ) → f.arity ≤ MOST_ARGUMENTS → WordStop rest → text.now ≡ name_text f ++ rest
        → IsSomeAnd r (λ p. (p.0 ≡ f) × (p.1.now ≡ rest))) }
    ensures few { IfOk result (λ r. IfSome r (λ p. p.0.arity ≤ MOST_ARGUMENTS)) }
{
    let Some(text) = after_word(text, b":") else {
        return Ok(None);
    };
    let Some((name, text)) = read_quoted(alloc, text)? else {
        return Ok(None);
    };
    let Some(text) = after_word(text, b"/") else {
        return Ok(None);
    };
    match read_arity(text) {
        Some((arity, rest)) if arity <= MOST_ARGUMENTS => {
            Ok(Some((FunName { name, arity }, rest)))
        }
        _ => Ok(None),
    }
}

// The types of so many arguments and of the value, and the end of the line.
fn read_signature(alloc: Global, arity: u32, text: &[u8]) -> Result<Option<Sig>, Memory>
    ensures complete { IfOk result (λ r. (s : TheSig) → length s.args ≡ arity → text.now ≡ codes " " ++ signature_text s ++ 10 ∷ []
        → r ≡ Some s) }
    ensures count { IfOk result (λ r. IfSome r (λ s. length s.args ≡ arity)) }
{
    let Some(text) = after_word(text, b" (") else {
        return Ok(None);
    };
    let mut args = List::new(alloc);
    match read_types(alloc, arity, text, &mut args) {
        Ok(Some(text)) => with_value(alloc, args, text),
        Ok(None) => Ok(None),
        Err(Memory) => Err(Memory),
    }
}

// The signature of these arguments, where the type of the value stands here, and the end of the line.
fn with_value(alloc: Global, args: List<Ty>, text: &[u8]) -> Result<Option<Sig>, Memory>
    ensures complete { IfOk result (λ r. (s : TheSig) → args ≡ s.args → text.now ≡ codes ") -> " ++ text_of s.result ++ 10 ∷ [] → r ≡ Some s) }
    ensures count { IfOk result (λ r. IfSome r (λ s. length s.args ≡ length args)) }
{
    decision_laws();
    let value = read_value(alloc, text)?;
    match value {
        Some(value) => Ok(Some(Sig::new(args, value))),
        None => Ok(None),
    }
}

// The type of the value, and the end of the line.
fn read_value(alloc: Global, text: &[u8]) -> Result<Option<Ty>, Memory>
    ensures { IfOk result (λ r. (t : Type4) → text.now ≡ codes ") -> " ++ text_of t ++ 10 ∷ [] → r ≡ Some t) }
{
    let Some(text) = after_word(text, b") -> ") else {
        return Ok(None);
    };
    let Some(text) = before_end(text) else {
        return Ok(None);
    };
    match read_front(alloc, text)? {
        Some((value, _)) => Ok(Some(value)),
        None => Ok(None),
    }
}

// What stands before the end of the line.
fn before_end(text: &[u8]) -> Option<&[u8]>
    ensures { (front : List ℕ) → text.now ≡ front ++ 10 ∷ [] → IsSomeAnd result (λ left. left.now ≡ front) }
{
    let (last, front) = text.split_last()?;
    if *last == b'\n' { Some(front) } else { None }
}

// Adds so many types, with commas between, and gives what stands behind them.
fn read_types<'a>(
    alloc: Global,
    count: u32,
    text: &'a [u8],
    types: &mut List<Ty>,
) -> Result<Option<&'a [u8]>, Memory>
    ensures complete { IfOk result (λ r. ReadsTypes count text.now types.old types.new r) }
    ensures count { IfOk result (λ r. IfSome r (λ _. length types.new ≡ length types.old + count)) }
{
    if count == 0 {
        return Ok(Some(text));
    }
    match read_one(alloc, text, types)? {
        Some(text) => read_more(alloc, count - 1, text, types),
        None => Ok(None),
    }
}

// The same with a comma before each.
fn read_more<'a>(
    alloc: Global,
    count: u32,
    text: &'a [u8],
    types: &mut List<Ty>,
) -> Result<Option<&'a [u8]>, Memory>
    ensures complete { IfOk result (λ r. ReadsMore count text.now types.old types.new r) }
    ensures count { IfOk result (λ r. IfSome r (λ _. length types.new ≡ length types.old + count)) }
{
    if count == 0 {
        return Ok(Some(text));
    }
    let Some(text) = after_word(text, b",") else {
        return Ok(None);
    };
    match read_one(alloc, text, types)? {
        Some(text) => read_more(alloc, count - 1, text, types),
        None => Ok(None),
    }
}

// Adds a type, and gives what stands behind it.
fn read_one<'a>(
    alloc: Global,
    text: &'a [u8],
    types: &mut List<Ty>,
) -> Result<Option<&'a [u8]>, Memory>
    ensures complete { IfOk result (λ r. ReadsOne text.now types.old types.new r) }
    ensures count { IfOk result (λ r. IfSome r (λ _. length types.new ≡ length types.old + 1)) }
{
    match read_front(alloc, text)? {
        Some((ty, rest)) => {
            types.add(ty)?;
            Ok(Some(rest))
        }
        None => Ok(None),
    }
}
