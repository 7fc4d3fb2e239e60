//! The run of a program over files, from its words to what it writes.
ghost use Rattle.std.specs.Prelude.{◌≡◌, ◌↔◌, ℕ, ◌≤◌, length, IfOk, IfSome};
ghost use Rattle.table_keep.specs.Model.{sources_so};
ghost use Rattle.analysis_sources.specs.declared.refusals.RefusalName.TheVariants.{TooLong};
ghost use Rattle.analysis_sources.specs.declared.refusals.SourceFault.{SourceFault};
ghost use Rattle.analysis_sources.specs.Refusals.{missing, refusal_number};
ghost use Rattle.analysis_sources.specs.Sources.{of_the_whole};
ghost use Rattle.analysis_sources.specs.Words.{texts};
ghost use Rattle.analysis_answers.specs.FileCauses.{NamesFaulty, NamesMissing, NamesModules, NamesTooLong, NamesTwice};
ghost use Rattle.analysis_answers.specs.FileRuns.{Answers, AnswersSources, FailsToRead, FailsToWrite, Intended, IsAnswer, IsPossible, Writes, duplicate};
ghost use Rattle.analysis_answers.specs.FileRuns.{refused, too_many};
ghost use Rattle.analysis_answers.specs.Words.{IsNoCommand, NamesFiles, NamesTooMany};

use crate::files::{FilesRead, read_files};
use crate::program::{FileProgram, OutputFault};
use crate::run_answer::{RunAnswer, refuse_second};
use crate::run_status::RunStatus;
use analysis_sources::{Device, discard_sources, one_reading_of_files};
use core_scope::SetFault;
use da_shelf::{Shelf, Sink, SinkFault, give};
use std::alloc::Global;
use table_keep::Source;
use type_kinds::{List, Memory};

/// Runs a program over the files that the words name, 1 to 1,024: reads them, and writes to the sink what the program writes of their
/// sources. Nothing that the shelf holds changes.
///
/// - `Done`: the files are the sources of accepted modules with names of their own, and all was written.
/// - `Usage`: the words are no command; the usage line was written.
/// - `Refused`: more than 1,024 files are named (24). Or the file at the position `word` is the first that isn't held (26), that has
///   more than 16 MiB or more than 64 MiB with those before it (25), or that is the source of no accepted module (1 to 13, by its first
///   fault). Or it is the first whose module has the name of one before it, the earliest of them at the position `other` (14). The line
///   that was written names the refusal and the file, and its line in the source.
/// - `DeviceFault`: the shelf or the sink failed, and has counted it.
/// - `Memory`: there was no memory left, and nothing was written.
pub fn run_program<P: FileProgram, F: Shelf, K: Sink>(
    program: &P,
    alloc: Global,
    words: &[&str],
    shelf: &mut F,
    out: &mut K,
) -> RunStatus
    // The headline: the status and the bytes written are those of the words and of what is held.
    ensures outcome { IsAnswer result → IfSome (F.held shelf.old)
        (λ held. Answers P.usage_line P.gives (texts words.now) held result (K.written out.old) (K.written out.new)) }
    ensures writes { result ≡ RunStatus.Done → IfSome (F.held shelf.old)
        (λ held. Writes P.gives (texts words.now) held (K.written out.old) (K.written out.new)) }

    // When each answer comes.
    ensures usage { IsAnswer result → (result ≡ RunStatus.Usage) ↔ IsNoCommand (texts words.now) }
    ensures too_many { IsAnswer result → (result ≡ too_many) ↔ NamesTooMany (texts words.now) }
    ensures missing { IsAnswer result → IfSome (F.held shelf.old)
        (λ held. (word : ℕ) → (result ≡ refused word missing) ↔ NamesMissing (texts words.now) held word) }
    ensures too_long { IsAnswer result → IfSome (F.held shelf.old)
        (λ held. (word : ℕ) → (result ≡ refused word (of_the_whole TooLong)) ↔ NamesTooLong (texts words.now) held word) }
    ensures faulty { IsAnswer result → IfSome (F.held shelf.old)
        (λ held. (word : ℕ) (fault : SourceFault) → refusal_number fault.name ≤ 13
        → (result ≡ refused word fault) ↔ NamesFaulty (texts words.now) held word fault) }
    ensures duplicate { IsAnswer result → IfSome (F.held shelf.old)
        (λ held. (word other : ℕ) → (result ≡ duplicate word other) ↔ NamesTwice (texts words.now) held word other) }
    ensures done { IsAnswer result → IfSome (F.held shelf.old) (λ held. (result ≡ RunStatus.Done) ↔ NamesModules (texts words.now) held) }
    ensures read { (word : ℕ) → result ≡ RunStatus.DeviceFault (Device.Read word)
        → FailsToRead (texts words.now) (F.held shelf.old) word (F.read_faults shelf.old) (F.read_faults shelf.new) (K.written out.old) (K.written out.new) }
    ensures write { result ≡ RunStatus.DeviceFault Device.Write
        → FailsToWrite P.usage_line P.gives (texts words.now) (F.held shelf.old) (F.read_faults shelf.old) (F.read_faults shelf.new)
        (K.faults out.old) (K.faults out.new) (K.written out.old) (K.written out.new) }
    ensures memory { result ≡ RunStatus.Memory → K.written out.new ≡ K.written out.old }
    ensures possible { IsPossible (texts words.now) result }

    // Nothing is put onto the shelf.
    ensures held { F.held shelf.new ≡ F.held shelf.old }
{
    one_reading_of_files();
    let RunAnswer { status, output } = match intended(program, alloc, words, shelf) {
        Ok(answer) => answer,
        Err(Memory) => return RunStatus::Memory,
    };
    match give(out, output.as_slice()) {
        Ok(()) => status,
        Err(SinkFault::Failed) => RunStatus::DeviceFault(Device::Write),
    }
}

// What a run means to answer: all of it but the writing.
fn intended<P: FileProgram, F: Shelf>(
    program: &P,
    alloc: Global,
    words: &[&str],
    shelf: &mut F,
) -> Result<RunAnswer, Memory>
    ensures intended { IfOk result (λ a. Intended P.usage_line P.gives (texts words.now) (F.held shelf.old) (F.read_faults shelf.old)
        (F.read_faults shelf.new) a.status a.output) }
    ensures held { F.held shelf.new ≡ F.held shelf.old }
{
    let usage = program.usage();
    match read_files(alloc, words, usage, shelf) {
        Ok(FilesRead::Reads(sources)) => answered(program, alloc, words, sources),
        Ok(FilesRead::Says(answer)) => Ok(answer),
        Err(Memory) => Err(Memory),
    }
}

// The same for words whose files are read, as these sources, which are dropped.
fn answered<P: FileProgram>(
    program: &P,
    alloc: Global,
    words: &[&str],
    sources: List<Source>,
) -> Result<RunAnswer, Memory>
    requires named { NamesFiles (texts words.now) }
    requires whole { length sources ≡ length words.now }
    ensures { IfOk result (λ a. AnswersSources P.gives (texts words.now) (sources_so sources) a.status a.output) }
{
    let answer = answer_of(program, alloc, words, sources.as_slice());
    discard_sources(sources);
    answer
}

// The same for sources that are kept.
fn answer_of<P: FileProgram>(
    program: &P,
    alloc: Global,
    words: &[&str],
    sources: &[Source],
) -> Result<RunAnswer, Memory>
    requires named { NamesFiles (texts words.now) }
    requires whole { length sources.now ≡ length words.now }
    ensures { IfOk result (λ a. AnswersSources P.gives (texts words.now) (sources_so sources.now) a.status a.output) }
{
    match program.output_of(alloc, sources) {
        Ok(output) => {
            let status = RunStatus::Done;
            Ok(RunAnswer { status, output })
        }
        Err(OutputFault::Set(SetFault::DuplicateModule { first, second })) => {
            refuse_second(alloc, words, first, second)
        }
        Err(OutputFault::Memory) => Err(Memory),
    }
}
