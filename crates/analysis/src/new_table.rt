//! The new table: the entries that are kept, and one for each module that was solved.
ghost use Rattle.std.specs.Prelude.{◌≡◌, ℕ, ◌<◌, None, Some, [], ◌∷◌, ◌++◌, cond, true, length, map, IsTrue, IfOk, OnOk};
ghost use Rattle.std.proofs.Props.{props};
ghost use Rattle.std.specs.BTreeMap.{IsOrdered};
ghost use Rattle.type_kinds_sets.specs.Names.{name_cmp};
ghost use Rattle.core_scope.specs.Checked.{module_of};
ghost use Rattle.core_scope.specs.Names.{same_atom};
ghost use Rattle.core_scope.specs.Sets.{StandsEarlier};
ghost use Rattle.cons_tree.specs.Callees.{found};
ghost use Rattle.table_file.specs.Order.{rises, is_name_before};
ghost use Rattle.table_keep.specs.Groups.{has};
ghost use Rattle.table_keep.specs.Lists.{member_names, IsMemberOf};
ghost use Rattle.table_keep.specs.Model.{entries_so, entry_of, entry_so, sources_so};
ghost use Rattle.type_kinds.specs.declared.atom.Atom.{Atom};
ghost use Rattle.analysis.specs.steps.Adding.{Adds};
ghost use Rattle.analysis.specs.steps.Making.{kept_of, lines_in, AreNew, AreOpen};
ghost use Rattle.analysis.specs.steps.Keyed.{are_keyed, entry_at, kept_among};
ghost use Rattle.analysis.specs.steps.Members.{AreMembersOf};

use crate::waves::Decided;
use core_scope::Names;
use std::alloc::Global;
use std::collections::BTreeMap;
use table_file::{Entry, Table};
use table_keep::{GroupMember, Source, entry_from, groups};
use type_kinds::{Atom, Bytes, List, Memory};

/// Entries by name.
#[derive(Drop)]
pub struct Entries {
    alloc: Global,
    by_name: BTreeMap<Atom, Entry>,
    ghost keyed: { IsTrue (are_keyed by_name.entries) },
    ghost ordered: { IsOrdered name_cmp by_name } by { Prim.hlevel props },
}

impl Entries {
    fn new(alloc: Global) -> Entries
        ensures { (h : Atom) → entry_at result.by_name h ≡ None }
    {
        Entries {
            alloc,
            by_name: BTreeMap::new(alloc),
        }
    }

    // Adds an entry under its name.
    fn add(&mut self, entry: Entry) -> Result<(), Memory>
        ensures { OnOk result ((h : Atom) → entry_at self.new.by_name h
            ≡ cond (same_atom h entry.name) (Some (entry_so entry)) (entry_at self.old.by_name h)) }
    {
        let name = entry.name.copy(self.alloc)?;
        match self.by_name.insert(name, entry) {
            Ok(_) => Ok(()),
            Err(_) => Err(Memory),
        }
    }

    // The lines of the entry of a name.
    fn lines_of(&self, name: &Atom) -> Result<Bytes, Memory>
        ensures { IfOk result (λ lines. lines ≡ lines_in (entry_at self.now.by_name name.now)) }
    {
        match self.by_name.get(name) {
            Some(entry) => entry.lines.copy(self.alloc),
            None => Ok(List::new(self.alloc)),
        }
    }

    /// The table of these entries. `Memory` if allocation fails.
    pub fn into_table(self, alloc: Global) -> Result<Table, Memory>
        ensures { IfOk result (λ table. (h : Atom) → entry_of (entries_so table) h ≡ entry_at self.by_name h) }
    {
        let Entries { by_name, .. } = self;
        let mut by_name = by_name;
        let mut entries = List::new(alloc);
        while let Some((_, entry)) = by_name.pop_first() {
            entries.add(entry)?;
        }
        Ok(Table { entries })
    }
}

/// The entries of the new table. `Memory` if allocation fails.
pub fn new_entries(
    alloc: Global,
    sources: &[Source],
    table: &Table,
    decided: &Decided,
) -> Result<Entries, Memory>
    requires distinct { (j : ℕ) → j < length sources.now → StandsEarlier (map (λ s. (module_of s.checked).name) sources.now) j → ⊥ }
    requires counted { length decided.now.lines ≡ length sources.now }
    requires open { AreOpen (kept_of decided.now.changed (entries_so table.now)) (sources_so sources.now) (found decided.now.known) }
    ensures { IfOk result (λ entries. AreNew (kept_of decided.now.changed (entries_so table.now)) (sources_so sources.now)
        (found decided.now.known) decided.now.lines (entry_at entries.by_name)) }
{
    let kept = kept_table(alloc, table, &decided.changed)?;
    let list = groups(alloc, &kept, sources)?;
    let mut entries = Entries::new(alloc);
    for group in 0..list.count() {
        let members = list.members(group).as_slice();
        add_group(alloc, sources, &kept, members, decided, &mut entries)?;
    }
    Ok(entries)
}

// The table of the entries that are kept.
fn kept_table(alloc: Global, table: &Table, changed: &Names<Atom>) -> Result<Table, Memory>
    ensures { IfOk result (λ kept. entries_so kept ≡ kept_of changed.now (entries_so table.now)) }
{
    let mut entries = List::new(alloc);
    for entry in table.entries.as_slice() {
        add_kept(alloc, entry, changed, &mut entries)?;
    }
    Ok(Table { entries })
}

// Adds a copy of an entry last, if it is kept.
fn add_kept(
    alloc: Global,
    entry: &Entry,
    changed: &Names<Atom>,
    entries: &mut List<Entry>,
) -> Result<(), Memory>
    ensures { OnOk result (entries.new ≡ entries.old ++ kept_among changed.now (entry.now ∷ [])) }
{
    if changed.has(&entry.name) {
        Ok(())
    } else {
        entries.add(entry.copy(alloc)?)
    }
}

// Adds the entries of the members of a group.
fn add_group(
    alloc: Global,
    sources: &[Source],
    kept: &Table,
    members: &[GroupMember],
    decided: &Decided,
    entries: &mut Entries,
) -> Result<(), Memory>
    requires distinct { (j : ℕ) → j < length sources.now → StandsEarlier (map (λ s. (module_of s.checked).name) sources.now) j → ⊥ }
    requires counted { length decided.now.lines ≡ length sources.now }
    requires open { AreOpen (entries_so kept.now) (sources_so sources.now) (found decided.now.known) }
    requires members { AreMembersOf kept.now sources.now members.now }
    requires rising { IsTrue (rises is_name_before (member_names members.now)) }
    ensures { OnOk result (Adds (entries_so kept.now) (sources_so sources.now) (found decided.now.known) decided.now.lines (member_names members.now)
        (member_names members.now) (entry_at entries.old.by_name) (entry_at entries.new.by_name)) }
{
    let names = names_of(alloc, members)?;
    for member in members {
        add_member(
            alloc,
            sources,
            kept,
            member,
            names.as_slice(),
            decided,
            entries,
        )?;
    }
    Ok(())
}

// The names of members.
fn names_of(alloc: Global, members: &[GroupMember]) -> Result<List<Atom>, Memory>
    ensures { IfOk result (λ names. names ≡ member_names members.now) }
{
    let mut names = List::new(alloc);
    for member in members {
        names.add(member.name.copy(alloc)?)?;
    }
    Ok(names)
}

// Adds the entry of a member of this group: the one that is kept, or the one that is made of its module.
fn add_member(
    alloc: Global,
    sources: &[Source],
    kept: &Table,
    member: &GroupMember,
    group: &[Atom],
    decided: &Decided,
    entries: &mut Entries,
) -> Result<(), Memory>
    requires distinct { (j : ℕ) → j < length sources.now → StandsEarlier (map (λ s. (module_of s.checked).name) sources.now) j → ⊥ }
    requires counted { length decided.now.lines ≡ length sources.now }
    requires open { AreOpen (entries_so kept.now) (sources_so sources.now) (found decided.now.known) }
    requires member { IsMemberOf kept.now sources.now member.now }
    requires rising { IsTrue (rises is_name_before group.now) }
    requires own { has group.now member.now.name ≡ true }
    ensures { OnOk result (Adds (entries_so kept.now) (sources_so sources.now) (found decided.now.known) decided.now.lines group.now (member.now.name ∷ [])
        (entry_at entries.old.by_name) (entry_at entries.new.by_name)) }
{
    match (member.entry, member.source) {
        (Some(at), _) => entries.add(kept.entries.at(at as usize).copy(alloc)?),
        (None, Some(at)) => {
            let lines = decided.lines.at(at as usize).copy(alloc)?;
            let source = &sources[at as usize];
            let entry = entry_from(alloc, source, group, &decided.known, lines)?;
            entries.add(entry)
        }
        (None, None) => Ok(()),
    }
}

/// The reports on modules, in their order: the lines of their entries. `Memory` if allocation fails.
pub fn reports_of(
    alloc: Global,
    sources: &[Source],
    entries: &Entries,
) -> Result<List<Bytes>, Memory>
    ensures { IfOk result (λ reports. reports ≡ map (λ s. lines_in (entry_at entries.now.by_name s.tree.name)) (sources_so sources.now)) }
{
    let mut reports = List::new(alloc);
    for source in sources {
        reports.add(entries.lines_of(&source.checked.module().name)?)?;
    }
    Ok(reports)
}
