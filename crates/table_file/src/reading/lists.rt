// The lists of an entry: names, used functions and exports.
ghost use Rattle.std.specs.Prelude.{IfOk, IfSome, IfNone};
ghost use Rattle.std.specs.List.{list_all};
ghost use Rattle.table_file.specs.Spelling.{counted, text_bytes, used_bytes, export_bytes};
ghost use Rattle.table_file.specs.steps.Reads.{anything, Found, NoneFirst};
ghost use Rattle.table_file.specs.steps.Tests.{has_short_callee, is_short_export};

use crate::laws::spelling_laws;
use crate::reading::functions::{read_callee, read_summary};
use crate::reading::leaves::{read_name, read_number};
use crate::used::Used;
use cons_tree::Summary;
use core_ast::FunName;
use std::alloc::Global;
use type_kinds::{Atom, List, Memory};

/// How many names there are, and these.
pub fn read_names(alloc: Global, bytes: &[u8]) -> Result<Option<(List<Atom>, &[u8])>, Memory>
    ensures found { IfOk result (λ read. IfSome read (λ p. Found (list_all anything) (counted text_bytes) bytes.now p.0 p.1.now)) }
    ensures none { IfOk result (λ read. IfNone read (NoneFirst (list_all anything) (counted text_bytes) bytes.now)) }
{
    let Some((count, after)) = read_number(bytes) else {
        return Ok(None);
    };
    let mut names = List::new(alloc);
    let mut rest = after;
    for _ in 0..count {
        let Some((name, left)) = read_name(alloc, rest)? else {
            return Ok(None);
        };
        names.add(name)?;
        rest = left;
    }
    Ok(Some((names, rest)))
}

// A used function.
fn read_used(alloc: Global, bytes: &[u8]) -> Result<Option<(Used, &[u8])>, Memory>
    ensures found { IfOk result (λ read. IfSome read (λ p. Found has_short_callee used_bytes bytes.now p.0 p.1.now)) }
    ensures none { IfOk result (λ read. IfNone read (NoneFirst has_short_callee used_bytes bytes.now)) }
{
    spelling_laws();
    let Some((home, after)) = read_name(alloc, bytes)? else {
        return Ok(None);
    };
    let Some((name, after)) = read_name(alloc, after)? else {
        return Ok(None);
    };
    let Some((arity, after)) = read_number(after) else {
        return Ok(None);
    };
    let Some((callee, rest)) = read_callee(alloc, arity, after)? else {
        return Ok(None);
    };
    let name = FunName { name, arity };
    Ok(Some((Used { home, name, callee }, rest)))
}

/// How many used functions there are, and these.
pub fn read_all_used(alloc: Global, bytes: &[u8]) -> Result<Option<(List<Used>, &[u8])>, Memory>
    ensures found { IfOk result (λ read. IfSome read (λ p. Found (list_all has_short_callee) (counted used_bytes) bytes.now p.0 p.1.now)) }
    ensures none { IfOk result (λ read. IfNone read (NoneFirst (list_all has_short_callee) (counted used_bytes) bytes.now)) }
{
    spelling_laws();
    let Some((count, after)) = read_number(bytes) else {
        return Ok(None);
    };
    let mut used = List::new(alloc);
    let mut rest = after;
    for _ in 0..count {
        let Some((one, left)) = read_used(alloc, rest)? else {
            return Ok(None);
        };
        used.add(one)?;
        rest = left;
    }
    Ok(Some((used, rest)))
}

// An export.
fn read_export(alloc: Global, bytes: &[u8]) -> Result<Option<((FunName, Summary), &[u8])>, Memory>
    ensures found { IfOk result (λ read. IfSome read (λ p. Found is_short_export export_bytes bytes.now p.0 p.1.now)) }
    ensures none { IfOk result (λ read. IfNone read (NoneFirst is_short_export export_bytes bytes.now)) }
{
    spelling_laws();
    let Some((name, after)) = read_name(alloc, bytes)? else {
        return Ok(None);
    };
    let Some((arity, after)) = after.split_first() else {
        return Ok(None);
    };
    let arity = u32::from(*arity);
    let Some((summary, rest)) = read_summary(alloc, arity, after)? else {
        return Ok(None);
    };
    Ok(Some(((FunName { name, arity }, summary), rest)))
}

/// How many exports there are, and these.
pub fn read_exports(
    alloc: Global,
    bytes: &[u8],
) -> Result<Option<(List<(FunName, Summary)>, &[u8])>, Memory>
    ensures found { IfOk result (λ read. IfSome read (λ p. Found (list_all is_short_export) (counted export_bytes) bytes.now p.0 p.1.now)) }
    ensures none { IfOk result (λ read. IfNone read (NoneFirst (list_all is_short_export) (counted export_bytes) bytes.now)) }
{
    spelling_laws();
    let Some((count, after)) = read_number(bytes) else {
        return Ok(None);
    };
    let mut exports = List::new(alloc);
    let mut rest = after;
    for _ in 0..count {
        let Some((export, left)) = read_export(alloc, rest)? else {
            return Ok(None);
        };
        exports.add(export)?;
        rest = left;
    }
    Ok(Some((exports, rest)))
}
