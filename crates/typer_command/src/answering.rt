//! What a run means to answer: all of it but the writing.
ghost use Rattle.std.specs.Prelude.{◌≡◌, length, IfOk};
ghost use Rattle.table_keep.specs.Model.{sources_so};
ghost use Rattle.analysis_sources.specs.Words.{texts};
ghost use Rattle.analysis_answers.specs.FileRuns.{AnswersSources, Intended};
ghost use Rattle.analysis_answers.specs.Words.{NamesFiles};
ghost use Rattle.typer_command.specs.Listed.{Lists, usage_line};

use crate::listing::typing_lines;
use analysis_answers::{FilesRead, RunAnswer, RunStatus, read_files, refuse_second};
use analysis_sources::discard_sources;
use analysis_typings::{SummariesFault, summaries};
use core_scope::SetFault;
use da_shelf::{Gate, Shelf};
use std::alloc::Global;
use std::sync::Wait;
use std::thread::Threads;
use table_keep::Source;
use type_kinds::{List, Memory};

/// What a run means to answer.
pub fn intended<R: Threads + Wait + Sync, F: Shelf, G: Gate + Sync>(
    rt: &R,
    alloc: Global,
    words: &[&str],
    shelf: &mut F,
    gate: &G,
) -> Result<RunAnswer, Memory>
    ensures intended { IfOk result (λ a. Intended usage_line Lists (texts words.now) (F.held shelf.old) (F.read_faults shelf.old)
        (F.read_faults shelf.new) a.status a.output) }
    ensures held { F.held shelf.new ≡ F.held shelf.old }
{
    match read_files(alloc, words, "usage: typer FILE..", shelf) {
        Ok(FilesRead::Reads(sources)) => listed(rt, alloc, words, sources, gate),
        Ok(FilesRead::Says(answer)) => Ok(answer),
        Err(Memory) => Err(Memory),
    }
}

// The same for words whose files are read, as these sources, which are dropped.
fn listed<R: Threads + Wait + Sync, G: Gate + Sync>(
    rt: &R,
    alloc: Global,
    words: &[&str],
    sources: List<Source>,
    gate: &G,
) -> Result<RunAnswer, Memory>
    requires named { NamesFiles (texts words.now) }
    requires whole { length sources ≡ length words.now }
    ensures { IfOk result (λ a. AnswersSources Lists (texts words.now) (sources_so sources) a.status a.output) }
{
    let answer = typed(rt, alloc, words, sources.as_slice(), gate);
    discard_sources(sources);
    answer
}

// The same for sources that are kept.
fn typed<R: Threads + Wait + Sync, G: Gate + Sync>(
    rt: &R,
    alloc: Global,
    words: &[&str],
    sources: &[Source],
    gate: &G,
) -> Result<RunAnswer, Memory>
    requires named { NamesFiles (texts words.now) }
    requires whole { length sources.now ≡ length words.now }
    ensures { IfOk result (λ a. AnswersSources Lists (texts words.now) (sources_so sources.now) a.status a.output) }
{
    match summaries(rt, alloc, sources, 1, gate) {
        Ok(found) => {
            let output = typing_lines(alloc, sources, found.as_slice())?;
            let status = RunStatus::Done;
            Ok(RunAnswer { status, output })
        }
        Err(SummariesFault::Set(SetFault::DuplicateModule { first, second })) => {
            refuse_second(alloc, words, first, second)
        }
        Err(SummariesFault::Memory) => Err(Memory),
    }
}
