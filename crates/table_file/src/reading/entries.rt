// Entries.
ghost use Rattle.std.specs.Prelude.{◌≡◌, IsTrue, IfOk, IfErr, IfSome, IfNone};
ghost use Rattle.table_file.specs.declared.entries.Entry.{Entry};
ghost use Rattle.table_file.specs.Faults.{names_of, rises_on};
ghost use Rattle.table_file.specs.Lengths.{has_short_types};
ghost use Rattle.table_file.specs.Order.{rises, is_name_before};
ghost use Rattle.table_file.specs.Spelling.{entry_bytes};
ghost use Rattle.table_file.specs.steps.Entries.{parts_of, parts_spelled, parts_fit, keeps, FaultIn};
ghost use Rattle.table_file.specs.steps.Reads.{Found, NoneFirst};

use crate::checks::{comes_first, exports_rise, holds_name, names_rise, used_outside, used_rise};
use crate::digests::Digest;
use crate::entries::Entry;
use crate::faults::TableFault;
use crate::laws::spelling_laws;
use crate::reading::leaves::{read_digest, read_name, read_text};
use crate::reading::lists::{read_all_used, read_exports, read_names};
use crate::used::Used;
use cons_tree::Summary;
use core_ast::FunName;
use std::alloc::Global;
use type_kinds::{Atom, Bytes, List, Memory};

// What stands behind an entry's name, before its rules are tested.
#[derive(Drop)]
struct Parts {
    digest: Digest,
    group: List<Atom>,
    calls: List<Atom>,
    used: List<Used>,
    exports: List<(FunName, Summary)>,
    lines: Bytes,
}

// What stands behind an entry's name.
fn read_parts(alloc: Global, bytes: &[u8]) -> Result<Option<(Parts, &[u8])>, Memory>
    ensures found { IfOk result (λ read. IfSome read (λ p. Found parts_fit parts_spelled bytes.now p.0 p.1.now)) }
    ensures none { IfOk result (λ read. IfNone read (NoneFirst parts_fit parts_spelled bytes.now)) }
{
    spelling_laws();
    let Some((digest, after)) = read_digest(bytes) else {
        return Ok(None);
    };
    let Some((group, after)) = read_names(alloc, after)? else {
        return Ok(None);
    };
    let Some((calls, after)) = read_names(alloc, after)? else {
        return Ok(None);
    };
    let Some((used, after)) = read_all_used(alloc, after)? else {
        return Ok(None);
    };
    let Some((exports, after)) = read_exports(alloc, after)? else {
        return Ok(None);
    };
    let Some((lines, rest)) = read_text(after) else {
        return Ok(None);
    };
    let parts = Parts {
        digest,
        group,
        calls,
        used,
        exports,
        lines: List::from_slice(alloc, lines)?,
    };
    Ok(Some((parts, rest)))
}

// Whether the parts keep the rules of an entry of this name.
fn keeps_rules(name: &Atom, parts: &Parts) -> bool
    ensures { result ≡ keeps name.now parts.now }
{
    let group = parts.group.as_slice();
    let calls = parts.calls.as_slice();
    if !names_rise(group) {
        return false;
    }
    if !names_rise(calls) {
        return false;
    }
    if !holds_name(group, name) {
        return false;
    }
    if !used_rise(parts.used.as_slice()) {
        return false;
    }
    if !used_outside(group, calls, parts.used.as_slice()) {
        return false;
    }
    exports_rise(parts.exports.as_slice())
}

// Drops parts.
fn discard(_parts: Parts) {}

// The entry of this name and these parts, if they keep the rules.
fn entry_of(name: Atom, parts: Parts) -> Option<Entry>
    requires { IsTrue (parts_fit parts) }
    ensures some { IfSome result (λ e. (e.name ≡ name) × (parts_of e ≡ parts)) }
    ensures none { IfNone result ((e : Entry) → e.name ≡ name → parts_of e ≡ parts → ⊥) }
{
    if !keeps_rules(&name, &parts) {
        discard(parts);
        return None;
    }
    let Parts {
        digest,
        group,
        calls,
        used,
        exports,
        lines,
    } = parts;
    Some(Entry {
        name,
        digest,
        group,
        calls,
        used,
        exports,
        lines,
    })
}

// Whether the name is greater than those of the entries.
fn follows(before: &[Entry], name: &Atom) -> bool
    requires { IsTrue (rises is_name_before (names_of before.now)) }
    ensures { result ≡ rises_on before.now name.now }
{
    match before.last() {
        Some(last) => comes_first(&last.name, name),
        None => true,
    }
}

/// The entry that stands first, behind the entries before it.
pub fn read_next<'a>(
    alloc: Global,
    before: &[Entry],
    bytes: &'a [u8],
) -> Result<(Entry, &'a [u8]), TableFault>
    requires { IsTrue (rises is_name_before (names_of before.now)) }
    ensures found { IfOk result (λ p. Found has_short_types entry_bytes bytes.now p.0 p.1.now) }
    ensures rises { IfOk result (λ p. IsTrue (rises_on before.now p.0.name)) }
    ensures fault { IfErr result (λ e. FaultIn e before.now bytes.now) }
{
    spelling_laws();
    let Some((name, after)) = read_name(alloc, bytes)? else {
        return Err(TableFault::BadEntry);
    };
    if !follows(before, &name) {
        return Err(TableFault::Order);
    }
    let Some((parts, rest)) = read_parts(alloc, after)? else {
        return Err(TableFault::BadEntry);
    };
    match entry_of(name, parts) {
        Some(entry) => Ok((entry, rest)),
        None => Err(TableFault::BadEntry),
    }
}
