//! The rule that table, certificate and sources have the same modules.
ghost use Rattle.std.specs.Prelude.{◌≡◌, ◌↔◌, true, List as ListOf, IfOk, MatchOption, Some, drop};
ghost use Rattle.table_keep.specs.Model.{entries_so, Source as TheSource};
ghost use Rattle.table_verify_laws.specs.Lined.{entry_names, first_name, AreModuleNames};
ghost use Rattle.table_verify_laws.specs.Rules.{IsFirstBroken};
ghost use Rattle.table_verify_laws.specs.Rules.TableRule.{same_modules};
ghost use Rattle.table_verify_rules.specs.steps.Lesser.{lesser_name, names_in, AreAlike};

use crate::least::lesser;
use std::alloc::Global;
use table_file::{Entry, Table};
use table_verify_laws::names_tell;
use type_kinds::{Atom, Memory};

/// The least name of a module that isn't in all of table, certificate and sources, where these are the names of the sources' modules,
/// rising. `Memory` if allocation fails.
pub fn other_module(
    alloc: Global,
    table: &Table,
    cert: &Table,
    names: &[Atom],
) -> Result<Option<Atom>, Memory>
    ensures { IfOk result (λ other. let T = entries_so table.now in let C = entries_so cert.now in (M : ListOf TheSource) → AreModuleNames M names.now
        → MatchOption other ((entry_names T ≡ names.now) × (entry_names C ≡ names.now)) (λ h. IsFirstBroken T C M same_modules h)) }
{
    names_tell();
    let entries = table.entries.as_slice();
    let certified = cert.entries.as_slice();
    let at = alike(entries, certified, names);
    let least = with_entry(alloc, None, entries, at)?;
    let least = with_entry(alloc, least, certified, at)?;
    with_name(alloc, least, names, at)
}

// The first position at which two lists of entries and the names aren't alike.
fn alike(entries: &[Entry], certified: &[Entry], names: &[Atom]) -> usize
    ensures { AreAlike (names_in entries.now) (names_in certified.now) names.now result }
{
    let count = entries.len().min(certified.len()).min(names.len());
    for at in 0..count {
        let here = &names[at];
        if !is_called(&entries[at], here) || !is_called(&certified[at], here) {
            return at;
        }
    }
    count
}

// Whether this is the entry's name.
fn is_called(entry: &Entry, name: &Atom) -> bool
    ensures { result ≡ true ↔ (entry.now.name ≡ name.now) }
{
    entry.name == *name
}

// The lesser of a name, which may be missing, and that of the entry at a position, if there is one.
fn with_entry(
    alloc: Global,
    least: Option<Atom>,
    entries: &[Entry],
    at: usize,
) -> Result<Option<Atom>, Memory>
    ensures { IfOk result (λ name. name ≡ lesser_name least (first_name (drop at (names_in entries.now)))) }
{
    match entries.get(at) {
        Some(entry) => lesser(alloc, least, &entry.name),
        None => Ok(least),
    }
}

// The lesser of a name, which may be missing, and the one at a position, if there is one.
fn with_name(
    alloc: Global,
    least: Option<Atom>,
    names: &[Atom],
    at: usize,
) -> Result<Option<Atom>, Memory>
    ensures { IfOk result (λ name. name ≡ lesser_name least (first_name (drop at names.now))) }
{
    match names.get(at) {
        Some(name) => lesser(alloc, least, name),
        None => Ok(least),
    }
}
