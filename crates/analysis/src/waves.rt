//! The groups in waves: each wave decides groups in ready order, up to one that waits for what is to be solved, and then
//! solves at once the modules of those that aren't kept.
ghost use Rattle.std.specs.Prelude.{◌≡◌, ℕ, ◌<◌, ◌≤◌, ◌++◌, suc, length, map, IfOk, OnOk};
ghost use Rattle.core_ast.specs.declared.syntax.FunName.{FunName};
ghost use Rattle.core_scope.specs.Checked.{module_of};
ghost use Rattle.core_scope.specs.Sets.{StandsEarlier};
ghost use Rattle.cons_tree.specs.Callees.{found};
ghost use Rattle.table_keep.specs.Groups.{IsGroups, groups_in};
ghost use Rattle.table_keep.specs.Kept.{calls_of, is_candidate};
ghost use Rattle.table_keep.specs.Lists.{lists_of, member_names, IsListOf};
ghost use Rattle.table_keep.specs.Model.{entries_so, sources_so};
ghost use Rattle.type_kinds.specs.declared.atom.Atom.{Atom};
ghost use Rattle.sound_laws_kept.specs.Waves.{wave_from, with_group};
ghost use Rattle.analysis.specs.Keeping.{AreKeptOf};
ghost use Rattle.analysis.specs.steps.Deciding.{seen, wave_so, AddsBoth, AreDecided, IsBefore, IsDecided};

use crate::entering::enter_group;
use crate::kept::KeptReport;
use crate::solving::solve_wave;
use crate::stopping::stops;
use analysis_crew::CompMemo;
use cons_tree::Summaries;
use core_scope::Names;
use da_shelf::Gate;
use module_flow_frame::findings_rest_on_calls;
use sound_laws_kept::{stands_rests, waves_are_groups};
use sound_laws_outside::{known_is_carried, solved_is_known};
use std::alloc::Global;
use std::sync::Wait;
use std::thread::Threads;
use table_file::Table;
use table_keep::{GroupList, GroupMember, Source, groups, unchanged};
use type_kinds::{Atom, Bytes, List, Memory};

/// What is decided of groups: what is known of functions, the names of the groups that aren't kept, and for each module that
/// is passed the lines of its report, if it was solved.
#[derive(Drop)]
pub struct Decided {
    pub known: Summaries,
    pub changed: Names<Atom>,
    pub lines: List<Bytes>,
}

// A wave: the number of the group behind it, and the names of its groups that aren't kept.
#[derive(Drop)]
struct Wave {
    next: u32,
    todo: Names<Atom>,
}

/// Decides all groups of modules that are passed and of entries. The memo, if there is one, is that of the last wave then, and at the
/// positions for kept reports stand those of the modules that were solved.
pub fn decide_all<R: Threads + Wait + Sync, G: Gate + Sync>(
    rt: &R,
    alloc: Global,
    sources: &[Source],
    table: &Table,
    kept: &mut List<Option<KeptReport>>,
    memo: &mut Option<CompMemo>,
    workers: u32,
    gate: &G,
) -> Result<Decided, Memory>
    requires distinct { (j : ℕ) → j < length sources.now → StandsEarlier (map (λ s. (module_of s.checked).name) sources.now) j → ⊥ }
    requires kept { AreKeptOf (sources_so sources.now) kept.old }
    requires least { 1 ≤ workers }
    requires most { workers ≤ 64 }
    ensures places { length kept.new ≡ length kept.old }
    ensures kept { AreKeptOf (sources_so sources.now) kept.new }
    ensures decided { IfOk result (λ decided. AreDecided (entries_so table.now) (sources_so sources.now) (found decided.known) decided.changed decided.lines) }
{
    let list = groups(alloc, table, sources)?;
    let mut decided = Decided {
        known: Summaries::new(alloc),
        changed: Names::new(alloc),
        lines: List::empty_lists(alloc, sources.len())?,
    };
    let mut next = 0;
    while next < list.count() {
        next = decide_wave(
            rt,
            alloc,
            sources,
            table,
            &list,
            next,
            &mut decided,
            kept,
            memo,
            workers,
            gate,
        )?;
    }
    Ok(decided)
}

// Decides the groups of one wave, from this one on, and gives the number of the group behind them.
fn decide_wave<R: Threads + Wait + Sync, G: Gate + Sync>(
    rt: &R,
    alloc: Global,
    sources: &[Source],
    table: &Table,
    list: &GroupList,
    first: u32,
    decided: &mut Decided,
    kept: &mut List<Option<KeptReport>>,
    memo: &mut Option<CompMemo>,
    workers: u32,
    gate: &G,
) -> Result<u32, Memory>
    requires distinct { (j : ℕ) → j < length sources.now → StandsEarlier (map (λ s. (module_of s.checked).name) sources.now) j → ⊥ }
    requires groups { IsGroups (is_candidate (entries_so table.now) (sources_so sources.now)) (calls_of (entries_so table.now) (sources_so sources.now))
        (groups_in (lists_of list.now)) }
    requires made_for { IsListOf table.now sources.now list.now }
    requires below { first < length (lists_of list.now) }
    requires decided { IsDecided (entries_so table.now) (sources_so sources.now) (groups_in (lists_of list.now)) first
        (found decided.old.known) decided.old.changed decided.old.lines }
    requires kept { AreKeptOf (sources_so sources.now) kept.old }
    requires least { 1 ≤ workers }
    requires most { workers ≤ 64 }
    ensures places { length kept.new ≡ length kept.old }
    ensures kept { AreKeptOf (sources_so sources.now) kept.new }
    ensures more { IfOk result (λ next. first < next) }
    ensures decided { IfOk result (λ next. IsDecided (entries_so table.now) (sources_so sources.now) (groups_in (lists_of list.now)) next
        (found decided.new.known) decided.new.changed decided.new.lines) }
{
    waves_are_groups();
    stands_rests();
    solved_is_known();
    known_is_carried();
    findings_rest_on_calls();
    let wave = wave_from(
        alloc,
        sources,
        table,
        list,
        first,
        &mut decided.known,
        &mut decided.changed,
    )?;
    solve_wave(
        rt,
        alloc,
        sources,
        &wave.todo,
        &mut decided.known,
        &mut decided.lines,
        kept,
        memo,
        workers,
        gate,
    )?;
    Ok(wave.next)
}

// The wave that begins with this group: what the kept entries export is known then.
fn wave_from(
    alloc: Global,
    sources: &[Source],
    table: &Table,
    list: &GroupList,
    first: u32,
    known: &mut Summaries,
    changed: &mut Names<Atom>,
) -> Result<Wave, Memory>
    requires made_for { IsListOf table.now sources.now list.now }
    requires low { first ≤ length (lists_of list.now) }
    ensures wave { IfOk result (λ wave. wave_so wave.next (found known.new) wave.todo
        ≡ wave_from (entries_so table.now) (sources_so sources.now) (groups_in (lists_of list.now)) first (seen (found known.old))) }
    ensures changed { IfOk result (λ wave. changed.new ≡ changed.old ++ wave.todo) }
    ensures others { OnOk result ((h : Atom) (f : FunName) → IsBefore (groups_in (lists_of list.now)) first h
        → found known.new h f ≡ found known.old h f) }
{
    let mut todo = Names::new(alloc);
    for group in first..list.count() {
        if stops(alloc, sources, table, list.members(group).as_slice(), &todo)? {
            return Ok(Wave { next: group, todo });
        }
        decide_group(
            alloc, sources, table, list, group, known, &mut todo, changed,
        )?;
    }
    Ok(Wave {
        next: list.count(),
        todo,
    })
}

// A group is kept, or its names are put with those that are to be solved.
fn decide_group(
    alloc: Global,
    sources: &[Source],
    table: &Table,
    list: &GroupList,
    group: u32,
    known: &mut Summaries,
    todo: &mut Names<Atom>,
    changed: &mut Names<Atom>,
) -> Result<(), Memory>
    requires made_for { IsListOf table.now sources.now list.now }
    requires below { group < length (lists_of list.now) }
    ensures wave { OnOk result (wave_so (suc group) (found known.new) todo.new
        ≡ with_group (entries_so table.now) (sources_so sources.now) (groups_in (lists_of list.now)) (wave_so group (found known.old) todo.old)) }
    ensures changed { OnOk result (AddsBoth todo.old todo.new changed.old changed.new) }
    ensures others { OnOk result ((h : Atom) (f : FunName) → IsBefore (groups_in (lists_of list.now)) group h
        → found known.new h f ≡ found known.old h f) }
{
    let members = list.members(group).as_slice();
    if unchanged(table, sources, list, group, known) {
        return enter_group(alloc, table, members, known);
    }
    push_names(members, todo)?;
    push_names(members, changed)
}

// Adds the names of members.
fn push_names(members: &[GroupMember], names: &mut Names<Atom>) -> Result<(), Memory>
    ensures { OnOk result (names.new ≡ names.old ++ member_names members.now) }
{
    for member in members {
        names.push(&member.name)?;
    }
    Ok(())
}
