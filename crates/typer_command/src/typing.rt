//! The top call.
ghost use Rattle.std.specs.Prelude.{◌≡◌, ◌↔◌, ℕ, ◌≤◌, IfSome};
ghost use Rattle.analysis_sources.specs.declared.refusals.SourceFault.{SourceFault};
ghost use Rattle.analysis_sources.specs.declared.refusals.RefusalName.TheVariants.{TooLong};
ghost use Rattle.analysis_sources.specs.Refusals.{missing, refusal_number};
ghost use Rattle.analysis_sources.specs.Sources.{of_the_whole};
ghost use Rattle.analysis_sources.specs.Words.{texts};
ghost use Rattle.analysis_answers.specs.FileCauses.{NamesFaulty, NamesMissing, NamesModules, NamesTooLong, NamesTwice};
ghost use Rattle.analysis_answers.specs.FileRuns.{Answers, FailsToRead, FailsToWrite, IsAnswer, IsPossible, duplicate, refused, too_many};
ghost use Rattle.analysis_answers.specs.Words.{IsNoCommand, NamesTooMany};
ghost use Rattle.typer_command.specs.Listed.{Lists, WritesTruth, usage_line};

use crate::answering::intended;
use analysis_answers::{RunAnswer, RunStatus};
use analysis_sources::{Device, one_reading_of_files};
use analysis_typings::small_definitions;
use da_shelf::{Gate, Shelf, Sink, SinkFault, give};
use sound_laws_whole::known_holds;
use std::alloc::Global;
use std::sync::Wait;
use std::thread::Threads;
use type_kinds::Memory;
use typer_lines::typing_lines_once;

/// Prints each function's success typing: reads the files that the words name, 1 to 1,024, analyses their modules together, and writes
/// a line to the sink for each definition, as `'m':'f'/1 ({'ok',any()}) -> any()`: the modules in the order of the words, each module's
/// lines in the order of its text. Nothing that the shelf holds changes. The call may wait for workers; what it promises holds where it
/// returns.
///
/// - `Done`: the files are the sources of accepted modules with names of their own, and the lines were written. Each is that of a typing
///   and of no other, and each typing is true of every run of the modules.
/// - `Usage`: the words are no command; the usage line was written.
/// - `Refused`: more than 1,024 files are named (24). Or the file at the position `word` is the first that isn't held (26), that has
///   more than 16 MiB or more than 64 MiB with those before it (25), or that is the source of no accepted module (1 to 13, by its first
///   fault). Or it is the first whose module has the name of one before it, the earliest of them at the position `other` (14). The line
///   that was written names the refusal and the file, and its line in the source.
/// - `DeviceFault`: the shelf or the sink failed, and has counted it.
/// - `Memory`: there was no memory left, and nothing was written.
pub fn typer<R: Threads + Wait + Sync, F: Shelf, K: Sink, G: Gate + Sync>(
    rt: &R,
    alloc: Global,
    words: &[&str],
    shelf: &mut F,
    out: &mut K,
    gate: &G,
) -> RunStatus
    // The headline: the status and the bytes written are those of the words and of what is held.
    ensures outcome { IsAnswer result → IfSome (F.held shelf.old)
        (λ held. Answers usage_line Lists (texts words.now) held result (K.written out.old) (K.written out.new)) }

    // Each line reads back, and what it says is true of every run.
    ensures sound { result ≡ RunStatus.Done → IfSome (F.held shelf.old)
        (λ held. WritesTruth (texts words.now) held (K.written out.old) (K.written out.new)) }

    // When each answer comes.
    ensures usage { IsAnswer result → (result ≡ RunStatus.Usage) ↔ IsNoCommand (texts words.now) }
    ensures too_many { IsAnswer result → (result ≡ too_many) ↔ NamesTooMany (texts words.now) }
    ensures missing { IsAnswer result → IfSome (F.held shelf.old)
        (λ held. (word : ℕ) → (result ≡ refused word missing) ↔ NamesMissing (texts words.now) held word) }
    ensures too_long { IsAnswer result → IfSome (F.held shelf.old)
        (λ held. (word : ℕ) → (result ≡ refused word (of_the_whole TooLong)) ↔ NamesTooLong (texts words.now) held word) }
    ensures faulty { IsAnswer result → IfSome (F.held shelf.old)
        (λ held. (word : ℕ) (fault : SourceFault) → refusal_number fault.name ≤ 13
        → (result ≡ refused word fault) ↔ NamesFaulty (texts words.now) held word fault) }
    ensures duplicate { IsAnswer result → IfSome (F.held shelf.old)
        (λ held. (word other : ℕ) → (result ≡ duplicate word other) ↔ NamesTwice (texts words.now) held word other) }
    ensures done { IsAnswer result → IfSome (F.held shelf.old) (λ held. (result ≡ RunStatus.Done) ↔ NamesModules (texts words.now) held) }
    ensures read { (word : ℕ) → result ≡ RunStatus.DeviceFault (Device.Read word)
        → FailsToRead (texts words.now) (F.held shelf.old) word (F.read_faults shelf.old) (F.read_faults shelf.new) (K.written out.old) (K.written out.new) }
    ensures write { result ≡ RunStatus.DeviceFault Device.Write
        → FailsToWrite usage_line Lists (texts words.now) (F.held shelf.old) (F.read_faults shelf.old) (F.read_faults shelf.new) (K.faults out.old)
        (K.faults out.new) (K.written out.old) (K.written out.new) }
    ensures memory { result ≡ RunStatus.Memory → K.written out.new ≡ K.written out.old }
    ensures possible { IsPossible (texts words.now) result }

    // Nothing is put onto the shelf.
    ensures held { F.held shelf.new ≡ F.held shelf.old }
{
    one_reading_of_files();
    known_holds();
    small_definitions();
    typing_lines_once();
    let RunAnswer { status, output } = match intended(rt, alloc, words, shelf, gate) {
        Ok(answer) => answer,
        Err(Memory) => return RunStatus::Memory,
    };
    match give(out, output.as_slice()) {
        Ok(()) => status,
        Err(SinkFault::Failed) => RunStatus::DeviceFault(Device::Write),
    }
}
