//! Whether the entries of a group still stand.
ghost use Rattle.std.specs.Prelude.{◌≡◌, ◌<◌, ◌&&◌, Some, length, map};
ghost use Rattle.std.specs.Cmp.Lexicographic.{pointwise};
ghost use Rattle.core_scope.specs.Names.{same_atom};
ghost use Rattle.cons_tree.specs.Callees.{as_called, found};
ghost use Rattle.cons_tree.specs.Codes.{callee_code};
ghost use Rattle.cons_tree.specs.SameBy.{same_by};
ghost use Rattle.cons_tree.specs.declared.parts.Callee.TheVariants.{Undefined};
ghost use Rattle.table_keep.specs.Groups.{group_at};
ghost use Rattle.table_keep.specs.Kept.{unchanged, all_stand, entry_stands, is_old};
ghost use Rattle.table_keep.specs.Lists.{found_at, lists_of, member_names, IsListOf, IsMemberOf, IsWithin};
ghost use Rattle.table_keep.specs.Model.{entries_so, entry_of, entry_so, source_of, sources_so, used_so};

use crate::group_list::{GroupList, GroupMember};
use crate::source::Source;
use cons_tree::{Callee, Summaries};
use table_file::{Entry, Table, Used};
use type_kinds::Atom;

/// Whether a group is unchanged: each of its members has an entry, none is passed with another digest, each entry has this group,
/// and each function that an entry uses is what stands now. Takes no memory.
pub fn unchanged(
    table: &Table,
    sources: &[Source],
    list: &GroupList,
    group: u32,
    known: &Summaries,
) -> bool
    requires made_for { IsListOf table.now sources.now list.now }
    requires below { group < length (lists_of list.now) }
    ensures { result ≡ unchanged (entries_so table.now) (sources_so sources.now) (group_at (lists_of list.now) group)
        (λ h f. as_called (found known.now h f)) }
{
    let members = list.members(group).as_slice();
    for member in members {
        if !member_stands(table, sources, members, member, known) {
            return false;
        }
    }
    true
}

// Whether a member of a group has an entry that stands.
fn member_stands(
    table: &Table,
    sources: &[Source],
    group: &[GroupMember],
    member: &GroupMember,
    known: &Summaries,
) -> bool
    requires { IsMemberOf table.now sources.now member.now }
    ensures { result ≡ entry_stands (member_names group.now) (λ h f. as_called (found known.now h f)) (source_of (sources_so sources.now) member.now.name)
        (entry_of (entries_so table.now) member.now.name) }
{
    match member.entry {
        Some(at) => {
            let entry = table.entries.at(at as usize);
            entry_stands(sources, member.source, entry, group, known)
        }
        None => false,
    }
}

// Whether an entry stands, where its module's source is at this position.
#[tactic(auto, using(crate::proofs::StandingEntries::two_fail, crate::proofs::StandingEntries::two_hold))]
fn entry_stands(
    sources: &[Source],
    at: Option<u32>,
    entry: &Entry,
    group: &[GroupMember],
    known: &Summaries,
) -> bool
    requires { IsWithin sources.now at }
    ensures { result ≡ entry_stands (member_names group.now) (λ h f. as_called (found known.now h f)) (found_at (sources_so sources.now) at)
        (Some (entry_so entry.now)) }
{
    if !entry_may_stand(sources, at, entry, group) {
        return false;
    }
    all_used_stand(entry.used.as_slice(), known)
}

/// Whether an entry may stand, by what stands of functions: the source at this position, if there is one, has its digest, and its
/// group is this one. Takes no memory.
pub fn entry_may_stand(
    sources: &[Source],
    at: Option<u32>,
    entry: &Entry,
    group: &[GroupMember],
) -> bool
    requires { IsWithin sources.now at }
    ensures { result ≡ (is_old (found_at (sources_so sources.now) at) (entry_so entry.now) && pointwise same_atom entry.now.group (member_names group.now)) }
{
    if !is_old(sources, at, entry) {
        return false;
    }
    has_group(entry.group.as_slice(), group)
}

// Whether the source at a position, if there is one, has the entry's digest.
fn is_old(sources: &[Source], at: Option<u32>, entry: &Entry) -> bool
    requires { IsWithin sources.now at }
    ensures { result ≡ is_old (found_at (sources_so sources.now) at) (entry_so entry.now) }
{
    match at {
        Some(at) => {
            let source = &sources[at as usize];
            source.digest == entry.digest
        }
        None => true,
    }
}

// Whether these are the names of the members.
fn has_group(names: &[Atom], group: &[GroupMember]) -> bool
    ensures { result ≡ pointwise same_atom names.now (member_names group.now) }
{
    if names.len() != group.len() {
        return false;
    }
    for (at, name) in names.iter().enumerate() {
        if !name.is(&group[at].name) {
            return false;
        }
    }
    true
}

// Whether each used function is what stands now.
fn all_used_stand(used: &[Used], known: &Summaries) -> bool
    ensures { result ≡ all_stand (λ h f. as_called (found known.now h f)) (map used_so used.now) }
{
    for one in used {
        if !used_stands(one, known) {
            return false;
        }
    }
    true
}

// Whether a used function is what stands now.
fn used_stands(used: &Used, known: &Summaries) -> bool
    ensures { result ≡ same_by callee_code used.now.callee (as_called (found known.now used.now.home used.now.name)) }
{
    let now = known.find(&used.home, &used.name);
    match now {
        Callee::Local(_) => is_undefined(&used.callee),
        _ => used.callee == *now,
    }
}

// Whether no such function stands.
fn is_undefined(callee: &Callee) -> bool
    ensures { result ≡ same_by callee_code callee.now Undefined }
{
    match callee {
        Callee::Undefined => true,
        _ => false,
    }
}
