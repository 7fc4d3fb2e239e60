//! What entries that are kept say of functions.
ghost use Rattle.std.specs.Prelude.{◌≡◌, IsTrue, Contains, OnOk};
ghost use Rattle.std.specs.List.{list_all};
ghost use Rattle.cons_tree.specs.Callees.{found};
ghost use Rattle.cons_tree.specs.declared.parts.Callee.TheVariants.{Known};
ghost use Rattle.comp_rounds.specs.Rounds.{with_callee};
ghost use Rattle.table_file.specs.Rules.{is_export};
ghost use Rattle.table_keep.specs.Lists.{member_names};
ghost use Rattle.table_keep.specs.Model.{entries_so, entry_of, entry_so};
ghost use Rattle.analysis.specs.steps.Entering.{with_entries_of, with_entry, with_entry_of, with_exports};
ghost use Rattle.analysis.specs.steps.Members.{HasEntry};
ghost use Rattle.table_keep.specs.declared.group_list.GroupMember.{GroupMember};

use cons_tree::{Callee, Summaries, Summary};
use core_ast::FunName;
use std::alloc::Global;
use table_file::{Entry, Table};
use table_keep::GroupMember;
use type_kinds::{Atom, Memory};

/// Of the functions of a group it is known what the entries of its members say. `Memory` if allocation fails.
pub fn enter_group(
    alloc: Global,
    table: &Table,
    members: &[GroupMember],
    known: &mut Summaries,
) -> Result<(), Memory>
    requires { (m : GroupMember) → Contains members.now m → HasEntry table.now m }
    ensures { OnOk result (found known.new ≡ with_entries_of (entries_so table.now) (member_names members.now) (found known.old)) }
{
    for member in members {
        enter_member(alloc, table, member, known)?;
    }
    Ok(())
}

// The entry of a member, if it has one.
fn enter_member(
    alloc: Global,
    table: &Table,
    member: &GroupMember,
    known: &mut Summaries,
) -> Result<(), Memory>
    requires { HasEntry table.now member.now }
    ensures { OnOk result (found known.new ≡ with_entry_of (found known.old) (entry_of (entries_so table.now) member.now.name)) }
{
    match member.entry {
        Some(at) => enter_entry(alloc, table.entries.at(at as usize), known),
        None => Ok(()),
    }
}

// The functions that a module exports are known, and its other names are undefined.
fn enter_entry(alloc: Global, entry: &Entry, known: &mut Summaries) -> Result<(), Memory>
    ensures { OnOk result (found known.new ≡ with_entry (found known.old) (entry_so entry.now)) }
{
    known.close(&entry.name)?;
    enter_exports(alloc, &entry.name, entry.exports.as_slice(), known)
}

// The functions that a module exports are known: the last ones are entered first.
fn enter_exports(
    alloc: Global,
    home: &Atom,
    exports: &[(FunName, Summary)],
    known: &mut Summaries,
) -> Result<(), Memory>
    requires { IsTrue (list_all is_export exports.now) }
    ensures { OnOk result (found known.new ≡ with_exports (found known.old) home.now exports.now) }
{
    let mut left = exports.len();
    while left > 0 {
        left -= 1;
        enter_export(alloc, home, &exports[left], known)?;
    }
    Ok(())
}

// One of these functions is known.
fn enter_export(
    alloc: Global,
    home: &Atom,
    export: &(FunName, Summary),
    known: &mut Summaries,
) -> Result<(), Memory>
    requires { IsTrue (is_export export.now) }
    ensures { OnOk result (found known.new ≡ with_callee (found known.old) home.now export.now.0 (Known export.now.1)) }
{
    let summary = export.1.copy(alloc)?;
    known.set(home, &export.0, Callee::Known(summary))
}
