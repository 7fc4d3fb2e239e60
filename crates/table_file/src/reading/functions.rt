// What stands of functions: types, signatures, summaries and callees.
ghost use Rattle.std.specs.Prelude.{◌≡◌, ◌∷◌, IfOk, IfSome, IfNone};
ghost use Rattle.std.specs.List.{flat_map};
ghost use Rattle.cons_tree.specs.Signatures.{agree, all_none, has_none};
ghost use Rattle.table_file.specs.Spelling.{sig_bytes, summary_bytes, callee_bytes};
ghost use Rattle.table_file.specs.steps.Reads.{Found, NoneFirst};
ghost use Rattle.table_file.specs.steps.Tests.{are_types, is_sig, is_summary, is_callee};
ghost use Rattle.type_bytes.specs.ShortNames as short;
ghost use Rattle.type_bytes.specs.Spelling.{bytes_of};

use crate::laws::spelling_laws;
use cons_tree::{Callee, Sig, Summary};
use std::alloc::Global;
use type_bytes::{BytesFault, bytes_laws, take};
use type_kinds::{List, Memory, Shared};
use type_lattice::Ty;

// A type.
fn read_type(alloc: Global, bytes: &[u8]) -> Result<Option<(Ty, &[u8])>, Memory>
    ensures found { IfOk result (λ read. IfSome read (λ p. Found short.has_short_names bytes_of bytes.now p.0 p.1.now)) }
    ensures none { IfOk result (λ read. IfNone read (NoneFirst short.has_short_names bytes_of bytes.now)) }
{
    bytes_laws();
    match take(alloc, bytes, 0) {
        Ok((ty, after)) => {
            let (_, rest) = bytes.split_at(after);
            Ok(Some((ty, rest)))
        }
        Err(BytesFault::Memory) => Err(Memory),
        Err(BytesFault::Short) => Ok(None),
        Err(BytesFault::NotCanonical) => Ok(None),
    }
}

// `count` types, one behind the other.
fn read_types(alloc: Global, count: u32, bytes: &[u8]) -> Result<Option<(List<Ty>, &[u8])>, Memory>
    ensures found { IfOk result (λ read. IfSome read (λ p. Found (are_types count) (flat_map bytes_of) bytes.now p.0 p.1.now)) }
    ensures none { IfOk result (λ read. IfNone read (NoneFirst (are_types count) (flat_map bytes_of) bytes.now)) }
{
    spelling_laws();
    let mut types = List::new(alloc);
    let mut rest = bytes;
    for _ in 0..count {
        let Some((ty, after)) = read_type(alloc, rest)? else {
            return Ok(None);
        };
        types.add(ty)?;
        rest = after;
    }
    Ok(Some((types, rest)))
}

// Whether the types keep the rule of signatures: none of them is none, or all are.
fn types_agree(returned: &Ty, args: &[Ty]) -> bool
    ensures { result ≡ agree (returned.now ∷ args.now) }
{
    !some_none(returned, args) || each_none(returned, args)
}

// Whether the result or one of the arguments is none.
fn some_none(returned: &Ty, args: &[Ty]) -> bool
    ensures { result ≡ has_none (returned.now ∷ args.now) }
{
    returned.is_none() || any_none(args)
}

fn any_none(types: &[Ty]) -> bool
    ensures { result ≡ has_none types.now }
{
    types.iter().any(|ty| ty.is_none())
}

// Whether the result and all arguments are none.
fn each_none(returned: &Ty, args: &[Ty]) -> bool
    ensures { result ≡ all_none (returned.now ∷ args.now) }
{
    returned.is_none() && every_none(args)
}

fn every_none(types: &[Ty]) -> bool
    ensures { result ≡ all_none types.now }
{
    types.iter().all(|ty| ty.is_none())
}

// Drops types.
fn discard(_args: List<Ty>, _returned: Ty) {}

// A signature of `count` arguments.
fn read_sig(alloc: Global, count: u32, bytes: &[u8]) -> Result<Option<(Sig, &[u8])>, Memory>
    ensures found { IfOk result (λ read. IfSome read (λ p. Found (is_sig count) sig_bytes bytes.now p.0 p.1.now)) }
    ensures none { IfOk result (λ read. IfNone read (NoneFirst (is_sig count) sig_bytes bytes.now)) }
{
    spelling_laws();
    let Some((args, after)) = read_types(alloc, count, bytes)? else {
        return Ok(None);
    };
    let Some((returned, rest)) = read_type(alloc, after)? else {
        return Ok(None);
    };
    if !types_agree(&returned, args.as_slice()) {
        discard(args, returned);
        return Ok(None);
    }
    let sig = Sig {
        args,
        result: returned,
    };
    Ok(Some((sig, rest)))
}

/// A summary of `count` arguments.
pub fn read_summary(
    alloc: Global,
    count: u32,
    bytes: &[u8],
) -> Result<Option<(Summary, &[u8])>, Memory>
    ensures found { IfOk result (λ read. IfSome read (λ p. Found (is_summary count) summary_bytes bytes.now p.0 p.1.now)) }
    ensures none { IfOk result (λ read. IfNone read (NoneFirst (is_summary count) summary_bytes bytes.now)) }
{
    spelling_laws();
    let Some((strict, after)) = read_sig(alloc, count, bytes)? else {
        return Ok(None);
    };
    let Some((lenient, rest)) = read_sig(alloc, count, after)? else {
        return Ok(None);
    };
    let strict = Shared::new(alloc, strict)?;
    let lenient = Shared::new(alloc, lenient)?;
    Ok(Some((Summary { strict, lenient }, rest)))
}

/// What stands of a used function of `count` arguments.
pub fn read_callee(
    alloc: Global,
    count: u32,
    bytes: &[u8],
) -> Result<Option<(Callee, &[u8])>, Memory>
    ensures found { IfOk result (λ read. IfSome read (λ p. Found (is_callee count) callee_bytes bytes.now p.0 p.1.now)) }
    ensures none { IfOk result (λ read. IfNone read (NoneFirst (is_callee count) callee_bytes bytes.now)) }
{
    let Some((tag, rest)) = bytes.split_first() else {
        return Ok(None);
    };
    match *tag {
        0 => Ok(Some((Callee::Undefined, rest))),
        1 => Ok(Some((Callee::Unknown, rest))),
        2 => read_known(alloc, count, rest),
        _ => Ok(None),
    }
}

// What stands of a function that is known, behind the byte that says so.
fn read_known(alloc: Global, count: u32, bytes: &[u8]) -> Result<Option<(Callee, &[u8])>, Memory>
    ensures found { IfOk result (λ read. IfSome read (λ p. Found (is_callee count) callee_bytes (2 ∷ bytes.now) p.0 p.1.now)) }
    ensures none { IfOk result (λ read. IfNone read (NoneFirst (is_callee count) callee_bytes (2 ∷ bytes.now))) }
{
    spelling_laws();
    let Some((summary, rest)) = read_summary(alloc, count, bytes)? else {
        return Ok(None);
    };
    Ok(Some((Callee::Known(summary), rest)))
}
