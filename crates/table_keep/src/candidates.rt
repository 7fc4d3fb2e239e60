//! The modules that are passed and those that have an entry.
ghost use Rattle.std.specs.Prelude.{◌≡◌, ℕ, ◌<◌, ◌^◌, [], cond, length, None, Some, IsTrue, IfOk, OnOk, List};
ghost use Rattle.indexmap.specs.IndexMap.{get, keys};
ghost use Rattle.core_scope.specs.Names.{same_atom};
ghost use Rattle.core_scope.specs.Sets.{StandsEarlier};
ghost use Rattle.table_file.specs.Order.{rises, is_name_before};
ghost use Rattle.type_kinds.specs.declared.atom.Atom.{Atom as Name};
ghost use Rattle.table_keep.specs.steps.Candidates.{entry_names, source_in, source_names, standing};

use crate::source::Source;
use indexmap::IndexMap;
use std::alloc::Global;
use table_file::{Entry, Table};
use type_kinds::{Atom, Memory};

/// Where a module stands among those that are passed and among the entries.
#[derive(Clone, Copy, Debug)]
pub struct Positions {
    pub source: Option<u32>,
    pub entry: Option<u32>,
}

/// Modules by name, with their positions. A look-up is one in a hash table.
pub type Candidates = IndexMap<Atom, Positions>;

/// The modules that are passed and those that have an entry, rising by name. `Memory`: allocation failed, or there are 2^32 of
/// them or more.
pub fn candidates(alloc: Global, table: &Table, sources: &[Source]) -> Result<Candidates, Memory>
    requires distinct { (j : ℕ) → j < length sources.now → StandsEarlier (source_names sources.now) j → ⊥ }
    ensures standing { IfOk result (λ found. (q : Name) → get same_atom found q ≡ standing (source_names sources.now) (entry_names table.now.entries) q) }
    ensures rises { IfOk result (λ found. IsTrue (rises is_name_before (keys found))) }
    ensures few { IfOk result (λ found. length (keys found) < 2 ^ 32) }
{
    let mut found = IndexMap::new(alloc);
    add_sources(alloc, &mut found, sources)?;
    add_entries(alloc, &mut found, table.entries.as_slice())?;
    sort(&mut found)?;
    if found.len() > u32::MAX as usize {
        return Err(Memory);
    }
    Ok(found)
}

// Adds the modules that are passed.
fn add_sources(alloc: Global, found: &mut Candidates, sources: &[Source]) -> Result<(), Memory>
    requires distinct { (j : ℕ) → j < length sources.now → StandsEarlier (source_names sources.now) j → ⊥ }
    requires none { (q : Name) → get same_atom found.old q ≡ None }
    ensures { OnOk result ((q : Name) → get same_atom found.new q ≡ standing (source_names sources.now) [] q) }
{
    if sources.len() > u32::MAX as usize {
        return Err(Memory);
    }
    for (at, source) in sources.iter().enumerate() {
        let positions = Positions {
            source: Some(at as u32),
            entry: None,
        };
        put(alloc, found, &source.checked.module().name, positions)?;
    }
    Ok(())
}

// Adds those that have an entry.
fn add_entries(alloc: Global, found: &mut Candidates, entries: &[Entry]) -> Result<(), Memory>
    requires { IsTrue (rises is_name_before (entry_names entries.now)) }
    ensures { (sources : List Name) → ((q : Name) → get same_atom found.old q ≡ standing sources [] q)
        → OnOk result ((q : Name) → get same_atom found.new q ≡ standing sources (entry_names entries.now) q) }
{
    if entries.len() > u32::MAX as usize {
        return Err(Memory);
    }
    for (at, entry) in entries.iter().enumerate() {
        put_entry(alloc, found, &entry.name, at as u32)?;
    }
    Ok(())
}

// Puts the position of an entry under its name.
fn put_entry(alloc: Global, found: &mut Candidates, name: &Atom, at: u32) -> Result<(), Memory>
    ensures { OnOk result ((q : Name) → get same_atom found.new q
        ≡ cond (same_atom name.now q) (Some (record { source = source_in (get same_atom found.old name.now); entry = Some at }))
        (get same_atom found.old q)) }
{
    let source = match found.get(name) {
        Some(positions) => positions.source,
        None => None,
    };
    let entry = Some(at);
    put(alloc, found, name, Positions { source, entry })
}

// Puts positions under a name, in place of those that are there.
fn put(
    alloc: Global,
    found: &mut Candidates,
    name: &Atom,
    positions: Positions,
) -> Result<(), Memory>
    ensures { OnOk result ((q : Name) → get same_atom found.new q ≡ cond (same_atom name.now q) (Some positions) (get same_atom found.old q)) }
{
    let key = name.copy(alloc)?;
    match found.insert(key, positions) {
        Ok(_) => Ok(()),
        Err(_) => Err(Memory),
    }
}

// Sorts candidates by name.
fn sort(found: &mut Candidates) -> Result<(), Memory>
    ensures same { (q : Name) → get same_atom found.new q ≡ get same_atom found.old q }
    ensures rises { OnOk result (IsTrue (rises is_name_before (keys found.new))) }
{
    match found.sort_unstable_keys() {
        Ok(()) => Ok(()),
        Err(_) => Err(Memory),
    }
}
