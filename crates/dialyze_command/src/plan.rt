//! What a check means to answer, and to put onto the shelf before: all of it but the writing.
ghost use Rattle.std.specs.Prelude.{◌≡◌, ℕ, ◌+◌, ◌<◌, ◌≤◌, ◌^◌, List, None, Some, drop, length, slice_get, IfOk, IfSome};
ghost use Rattle.table_keep.specs.Model.{entries_so, sources_so};
ghost use Rattle.analysis_sources.specs.Words.{texts};
ghost use Rattle.dialyze_command.specs.Lines.{duplicate, duplicate_line};
ghost use Rattle.dialyze_command.specs.Outcome.{Checks, IsBegun};
ghost use Rattle.dialyze_command.specs.Words.{IsNoMake};
ghost use Rattle.dialyze_command.specs.steps.Plans.{IsJudged, IsMade, IsNewAs, IsPlan, first_of, second_of};
ghost use Rattle.dialyze_command.specs.steps.ToldPlans.{CheckPlanned, FilesPlanned};

use crate::answer::{Answer, duplicate, refuse, reported, too_many, unread, usage};
use crate::begin::{Begun, table_to_begin};
use crate::words::{Command, command_of};
use analysis::{Analysis, Fault, analyse};
use analysis_answers::{MOST_FILES, replace_fault_line};
use analysis_sources::{ReadFault, TOO_LONG, discard_sources, read_sources};
use core_scope::SetFault;
use da_shelf::{Gate, Shelf};
use std::alloc::Global;
use std::sync::Wait;
use std::thread::Threads;
use table_file::{Table, WriteFault, write_table};
use table_keep::Source;
use type_kinds::{Bytes, List, Memory};

/// What a run means to answer, and the table that it is to put onto the shelf before, if there is one.
#[derive(Drop)]
pub struct CheckPlan {
    pub answer: Answer,
    pub table: Option<NewTable>,
}

/// A table to put onto the shelf: the position of its name among the words, its bytes, and the line to write where the
/// shelf fails.
#[derive(Drop)]
pub struct NewTable {
    pub word: u32,
    pub bytes: Bytes,
    pub line: Bytes,
}

/// What a run means to answer, where the words don't ask for generated modules.
pub fn intended<R: Threads + Wait + Sync, F: Shelf, G: Gate + Sync>(
    rt: &R,
    alloc: Global,
    words: &[&str],
    shelf: &mut F,
    gate: &G,
) -> Result<CheckPlan, Memory>
    requires { IsNoMake (texts words.now) }
    ensures plan { IfOk result (λ p. IsPlan (texts words.now) (F.held shelf.old) (F.read_faults shelf.old)
        (F.read_faults shelf.new) p.answer.status p.answer.output p.table) }
    ensures told { IfOk result (λ p. CheckPlanned F.told shelf.old shelf.new (texts words.now)
        (F.read_faults shelf.old) (F.read_faults shelf.new) p.answer.status p.answer.output p.table) }
    ensures within { IfOk result (λ p. IfSome p.table (λ t. t.word < length words.now)) }
    ensures held { F.held shelf.new ≡ F.held shelf.old }
    ensures counted { F.read_faults shelf.old ≤ F.read_faults shelf.new }
    ensures replaces { F.replace_faults shelf.new ≡ F.replace_faults shelf.old }
{
    let Some(command) = command_of(words) else {
        let answer = usage(alloc)?;
        return Ok(CheckPlan {
            answer,
            table: None,
        });
    };
    if words.len() - command.start > MOST_FILES {
        let answer = too_many(alloc)?;
        return Ok(CheckPlan {
            answer,
            table: None,
        });
    }
    planned(rt, alloc, words, command, shelf, gate)
}

// The same for words that ask for a check of not too many files.
fn planned<R: Threads + Wait + Sync, F: Shelf, G: Gate + Sync>(
    rt: &R,
    alloc: Global,
    words: &[&str],
    command: Command,
    shelf: &mut F,
    gate: &G,
) -> Result<CheckPlan, Memory>
    requires checks { Checks (texts words.now) command (drop command.start (texts words.now)) }
    ensures plan { IfOk result (λ p. IsPlan (texts words.now) (F.held shelf.old) (F.read_faults shelf.old)
        (F.read_faults shelf.new) p.answer.status p.answer.output p.table) }
    ensures told { IfOk result (λ p. CheckPlanned F.told shelf.old shelf.new (texts words.now)
        (F.read_faults shelf.old) (F.read_faults shelf.new) p.answer.status p.answer.output p.table) }
    ensures within { IfOk result (λ p. IfSome p.table (λ t. t.word < length words.now)) }
    ensures held { F.held shelf.new ≡ F.held shelf.old }
    ensures counted { F.read_faults shelf.old ≤ F.read_faults shelf.new }
    ensures replaces { F.replace_faults shelf.new ≡ F.replace_faults shelf.old }
{
    match table_to_begin(alloc, words, command.plt, shelf) {
        Ok(Begun::Reads(table)) => with_table(rt, alloc, words, command, &table, shelf, gate),
        Ok(Begun::Says(answer)) => Ok(CheckPlan {
            answer,
            table: None,
        }),
        Err(Memory) => Err(Memory),
    }
}

// The same where the check begins with this table.
fn with_table<R: Threads + Wait + Sync, F: Shelf, G: Gate + Sync>(
    rt: &R,
    alloc: Global,
    words: &[&str],
    command: Command,
    table: &Table,
    shelf: &mut F,
    gate: &G,
) -> Result<CheckPlan, Memory>
    requires checks { Checks (texts words.now) command (drop command.start (texts words.now)) }
    requires begun { IsBegun (texts words.now) (F.held shelf.old) command.plt table.now }
    ensures plan { IfOk result (λ p. IsPlan (texts words.now) (F.held shelf.old) (F.read_faults shelf.old)
        (F.read_faults shelf.new) p.answer.status p.answer.output p.table) }
    ensures told { IfOk result (λ p. FilesPlanned F.told shelf.old shelf.new (texts words.now)
        command (drop command.start (texts words.now)) table.now
        (F.read_faults shelf.old) (F.read_faults shelf.new) p.answer.status p.answer.output p.table) }
    ensures within { IfOk result (λ p. IfSome p.table (λ t. t.word < length words.now)) }
    ensures held { F.held shelf.new ≡ F.held shelf.old }
    ensures counted { F.read_faults shelf.old ≤ F.read_faults shelf.new }
    ensures replaces { F.replace_faults shelf.new ≡ F.replace_faults shelf.old }
{
    match read_sources(alloc, words, command.start as u32, shelf) {
        Ok(sources) => judge(rt, alloc, words, command, sources, table, gate),
        Err(ReadFault::Refused(word, fault)) => {
            let answer = refuse(alloc, words[word as usize], word, fault)?;
            Ok(CheckPlan {
                answer,
                table: None,
            })
        }
        Err(ReadFault::Failed(word)) => {
            let answer = unread(alloc, words[word as usize], word)?;
            Ok(CheckPlan {
                answer,
                table: None,
            })
        }
        Err(ReadFault::Memory) => Err(Memory),
    }
}

// What a check of these sources, which the files hold, is to answer. The sources are dropped.
fn judge<R: Threads + Wait + Sync, G: Gate + Sync>(
    rt: &R,
    alloc: Global,
    words: &[&str],
    command: Command,
    sources: List<Source>,
    table: &Table,
    gate: &G,
) -> Result<CheckPlan, Memory>
    requires checks { Checks (texts words.now) command (drop command.start (texts words.now)) }
    requires whole { command.start + length sources ≡ length words.now }
    ensures judged { IfOk result (λ p. IsJudged (texts words.now) command (entries_so table.now)
        (sources_so sources) p.answer.status p.answer.output p.table) }
    ensures within { IfOk result (λ p. IfSome p.table (λ t. t.word < length words.now)) }
{
    let plan = judged(rt, alloc, words, command, sources.as_slice(), table, gate);
    discard_sources(sources);
    plan
}

// The same for sources that are kept.
fn judged<R: Threads + Wait + Sync, G: Gate + Sync>(
    rt: &R,
    alloc: Global,
    words: &[&str],
    command: Command,
    sources: &[Source],
    table: &Table,
    gate: &G,
) -> Result<CheckPlan, Memory>
    requires checks { Checks (texts words.now) command (drop command.start (texts words.now)) }
    requires whole { command.start + length sources.now ≡ length words.now }
    ensures judged { IfOk result (λ p. IsJudged (texts words.now) command (entries_so table.now)
        (sources_so sources.now) p.answer.status p.answer.output p.table) }
    ensures within { IfOk result (λ p. IfSome p.table (λ t. t.word < length words.now)) }
{
    match analyse(rt, alloc, sources, table, command.worker_count(), gate) {
        Ok(analysis) => made(alloc, words, command.out, &analysis),
        Err(Fault::Set(fault)) => twins(
            alloc,
            words,
            command.start as u32,
            first_of(fault),
            second_of(fault),
        ),
        Err(Fault::Memory) => Err(Memory),
    }
}

/// The position of the first of two modules with the same name.
fn first_of(fault: SetFault) -> u32
    ensures { result ≡ first_of fault }
{
    match fault {
        SetFault::DuplicateModule { first, .. } => first,
    }
}

/// The position of the second of them.
fn second_of(fault: SetFault) -> u32
    ensures { result ≡ second_of fault }
{
    match fault {
        SetFault::DuplicateModule { second, .. } => second,
    }
}

// The answer where the modules of the files at these positions have the same name, where the first file is the word at
// the position `start`.
fn twins(
    alloc: Global,
    words: &[&str],
    start: u32,
    first: u32,
    second: u32,
) -> Result<CheckPlan, Memory>
    requires first { start + first < length words.now }
    requires second { start + second < length words.now }
    requires few { length words.now < 2 ^ 32 }
    ensures status { IfOk result (λ p. p.answer.status ≡ duplicate (start + second) (start + first)) }
    ensures output { IfOk result (λ p. (file other : List ℕ) → slice_get (drop start (texts words.now)) second ≡ Some file
        → slice_get (drop start (texts words.now)) first ≡ Some other → p.answer.output ≡ duplicate_line file other) }
    ensures table { IfOk result (λ p. p.table ≡ None) }
{
    let file = words[(start + second) as usize];
    let other = words[(start + first) as usize];
    let answer = duplicate(alloc, file, start + second, other, start + first)?;
    Ok(CheckPlan {
        answer,
        table: None,
    })
}

// The reports of an analysis, and its table, if a name for it is given, the word at this position.
fn made(
    alloc: Global,
    words: &[&str],
    out: Option<usize>,
    analysis: &Analysis,
) -> Result<CheckPlan, Memory>
    requires within { IfSome out (λ word. word < length words.now) }
    requires few { IfSome out (λ word. word < 2 ^ 32) }
    ensures made { IfOk result (λ p. IsMade (texts words.now) out analysis.now.reports analysis.now.table p.answer.status p.answer.output p.table) }
    ensures within { IfOk result (λ p. IfSome p.table (λ t. t.word < length words.now)) }
{
    let answer = reported(alloc, analysis.reports.as_slice())?;
    match out {
        Some(word) => with_new(alloc, words[word], word as u32, answer, &analysis.table),
        None => Ok(CheckPlan {
            answer,
            table: None,
        }),
    }
}

// The answer with the table, for this name, the word at this position.
fn with_new(
    alloc: Global,
    name: &str,
    word: u32,
    answer: Answer,
    table: &Table,
) -> Result<CheckPlan, Memory>
    ensures made { IfOk result (λ p. IsNewAs name.now word answer table.now p.answer.status p.answer.output p.table) }
{
    match write_table(alloc, table) {
        Ok(bytes) => {
            let line = replace_fault_line(alloc, name)?;
            let table = Some(NewTable { word, bytes, line });
            Ok(CheckPlan { answer, table })
        }
        Err(WriteFault::TooLong) => {
            let answer = refuse(alloc, name, word, TOO_LONG)?;
            let table = None;
            Ok(CheckPlan { answer, table })
        }
        Err(WriteFault::Memory) => Err(Memory),
    }
}
