//! Before which groups a wave stops.
ghost use Rattle.std.specs.Prelude.{◌≡◌, map, IfOk};
ghost use Rattle.core_scope.specs.Checked.{tree_of};
ghost use Rattle.table_keep.specs.Calls.{called_modules};
ghost use Rattle.table_keep.specs.Kept.{calls_of};
ghost use Rattle.table_keep.specs.Lists.{member_names, IsMemberOf};
ghost use Rattle.table_keep.specs.Model.{entries_so, entry_of, source_of, sources_so, used_so};
ghost use Rattle.sound_laws_kept.specs.Waves.{all_may_stand, any_in, entry_may_stand, stops, touches, used_homes, uses_any};
ghost use Rattle.analysis.specs.steps.Members.{AreMembersOf, HasEntry};

use core_scope::{Checked, Names};
use std::alloc::Global;
use table_file::{Table, Used};
use table_keep::{GroupMember, Source, called_functions, called_modules, entry_may_stand};
use type_kinds::{Atom, Memory};

/// Whether a wave stops before this group: its entries may be kept, and it calls or uses a module that is to be solved, so
/// that what stands of it isn't known yet. `Memory` if allocation fails.
#[tactic(auto, using(crate::proofs::Stopped::none_stops, crate::proofs::Stopped::changed_stops, crate::proofs::Stopped::may_stop))]
pub fn stops(
    alloc: Global,
    sources: &[Source],
    table: &Table,
    members: &[GroupMember],
    todo: &Names<Atom>,
) -> Result<bool, Memory>
    requires { AreMembersOf table.now sources.now members.now }
    ensures { IfOk result (λ it. it ≡ stops (entries_so table.now) (sources_so sources.now) todo.now (member_names members.now)) }
{
    if todo.len() == 0 {
        return Ok(false);
    }
    if !all_may_stand(sources, table, members) {
        return Ok(false);
    }
    touches(alloc, sources, table, members, todo)
}

// Whether each member has an entry that may be kept, whatever stands of other modules.
fn all_may_stand(sources: &[Source], table: &Table, members: &[GroupMember]) -> bool
    requires { AreMembersOf table.now sources.now members.now }
    ensures { result ≡ all_may_stand (entries_so table.now) (sources_so sources.now) (member_names members.now) (member_names members.now) }
{
    for member in members {
        if !may_stand(sources, table, members, member) {
            return false;
        }
    }
    true
}

// Whether a member of this group has an entry that may be kept.
fn may_stand(sources: &[Source], table: &Table, group: &[GroupMember], member: &GroupMember) -> bool
    requires { IsMemberOf table.now sources.now member.now }
    ensures { result ≡ entry_may_stand (member_names group.now) (source_of (sources_so sources.now) member.now.name)
        (entry_of (entries_so table.now) member.now.name) }
{
    match member.entry {
        Some(at) => {
            let entry = table.entries.at(at as usize);
            entry_may_stand(sources, member.source, entry, group)
        }
        None => false,
    }
}

// Whether a member calls a module that is to be solved, or its entry uses one.
fn touches(
    alloc: Global,
    sources: &[Source],
    table: &Table,
    members: &[GroupMember],
    todo: &Names<Atom>,
) -> Result<bool, Memory>
    requires { AreMembersOf table.now sources.now members.now }
    ensures { IfOk result (λ it. it ≡ touches (entries_so table.now) (sources_so sources.now) todo.now (member_names members.now)) }
{
    for member in members {
        if calls_any(alloc, sources, table, member, todo)? {
            return Ok(true);
        }
        if uses_any(table, member, todo) {
            return Ok(true);
        }
    }
    Ok(false)
}

// Whether a member calls one of these modules: by its text, or else by its entry.
fn calls_any(
    alloc: Global,
    sources: &[Source],
    table: &Table,
    member: &GroupMember,
    todo: &Names<Atom>,
) -> Result<bool, Memory>
    requires { IsMemberOf table.now sources.now member.now }
    ensures { IfOk result (λ it. it ≡ any_in todo.now (calls_of (entries_so table.now) (sources_so sources.now) member.now.name)) }
{
    match (member.source, member.entry) {
        (Some(at), _) => text_calls_any(alloc, &sources[at as usize].checked, todo),
        (None, Some(at)) => Ok(any_in(todo, table.entries.at(at as usize).calls.as_slice())),
        (None, None) => Ok(false),
    }
}

// Whether a module calls one of these modules.
#[tactic(auto, unfolding(table_keep::specs::Calls::called_modules))]
fn text_calls_any(alloc: Global, module: &Checked, todo: &Names<Atom>) -> Result<bool, Memory>
    ensures { IfOk result (λ it. it ≡ any_in todo.now (called_modules (tree_of module.now))) }
{
    let calls = called_functions(alloc, module)?;
    let names = called_modules(alloc, calls.as_slice())?;
    Ok(any_in(todo, names.as_slice()))
}

// Whether one of the names is among those that are to be solved.
fn any_in(todo: &Names<Atom>, names: &[Atom]) -> bool
    ensures { result ≡ any_in todo.now names.now }
{
    for name in names {
        if todo.has(name) {
            return true;
        }
    }
    false
}

// Whether the entry of a member uses a function of one of these modules.
fn uses_any(table: &Table, member: &GroupMember, todo: &Names<Atom>) -> bool
    requires { HasEntry table.now member.now }
    ensures { result ≡ uses_any todo.now (entry_of (entries_so table.now) member.now.name) }
{
    match member.entry {
        Some(at) => any_used_in(todo, table.entries.at(at as usize).used.as_slice()),
        None => false,
    }
}

// Whether one of the functions is of a module that is to be solved.
fn any_used_in(todo: &Names<Atom>, used: &[Used]) -> bool
    ensures { result ≡ any_in todo.now (used_homes (map used_so used.now)) }
{
    for one in used {
        if todo.has(&one.home) {
            return true;
        }
    }
    false
}
