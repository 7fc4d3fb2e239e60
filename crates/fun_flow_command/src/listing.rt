//! The top call.
ghost use Rattle.std.specs.Prelude.{◌≡◌, ◌↔◌, ℕ, ◌≤◌, IfSome};
ghost use Rattle.analysis_sources.specs.declared.refusals.SourceFault.{SourceFault};
ghost use Rattle.analysis_sources.specs.declared.refusals.RefusalName.TheVariants.{TooLong};
ghost use Rattle.analysis_sources.specs.Refusals.{missing, refusal_number};
ghost use Rattle.analysis_sources.specs.Sources.{of_the_whole};
ghost use Rattle.analysis_sources.specs.Words.{texts};
ghost use Rattle.analysis_answers.specs.FileCauses.{NamesFaulty, NamesMissing, NamesModules, NamesTooLong, NamesTwice};
ghost use Rattle.analysis_answers.specs.FileRuns.{Answers, FailsToRead, FailsToWrite, IsAnswer, IsPossible, duplicate, refused, too_many};
ghost use Rattle.analysis_answers.specs.Words.{IsNoCommand, NamesTooMany};
ghost use Rattle.fun_flow_command.specs.Listed.{Lists, WritesTruth, usage_line};

use crate::program::FlowProgram;
use analysis_answers::{RunStatus, run_program};
use analysis_sources::Device;
use da_shelf::{Gate, Shelf, Sink};
use fun_flow_answers::nothing_is_left_out;
use sound_laws_fun_flow::only_listed_are_entered;
use std::alloc::Global;

/// Lists which functions each application of a value may enter: reads the files that the words name, 1 to 1,024, and writes a line to
/// the sink for each `apply` whose operator isn't a function's name, as `'m':3: apply of a value with 1 arguments may enter fun 'm':2`:
/// the modules in the order of the words, the applications of each in the order of its text. Nothing that the shelf holds changes. No
/// component is solved, so the gate isn't entered.
///
/// - `Done`: the files are the sources of accepted modules with names of their own, and the lines were written. In no run of the modules
///   does an application enter a function that its line doesn't have.
/// - `Usage`: the words are no command; the usage line was written.
/// - `Refused`: more than 1,024 files are named (24). Or the file at the position `word` is the first that isn't held (26), that has
///   more than 16 MiB or more than 64 MiB with those before it (25), or that is the source of no accepted module (1 to 13, by its first
///   fault). Or it is the first whose module has the name of one before it, the earliest of them at the position `other` (14). The line
///   that was written names the refusal and the file, and its line in the source.
/// - `DeviceFault`: the shelf or the sink failed, and has counted it.
/// - `Memory`: there was no memory left, and nothing was written.
pub fn fun_flow<F: Shelf, K: Sink, G: Gate + Sync>(
    alloc: Global,
    words: &[&str],
    shelf: &mut F,
    out: &mut K,
    _gate: &G,
) -> RunStatus
    // The headline: the status and the bytes written are those of the words and of what is held.
    ensures outcome { IsAnswer result → IfSome (F.held shelf.old)
        (λ held. Answers usage_line Lists (texts words.now) held result (K.written out.old) (K.written out.new)) }

    // No run enters what isn't listed.
    ensures sound { result ≡ RunStatus.Done → IfSome (F.held shelf.old)
        (λ held. WritesTruth (texts words.now) held (K.written out.old) (K.written out.new)) }

    // When each answer comes.
    ensures usage { IsAnswer result → (result ≡ RunStatus.Usage) ↔ IsNoCommand (texts words.now) }
    ensures too_many { IsAnswer result → (result ≡ too_many) ↔ NamesTooMany (texts words.now) }
    ensures missing { IsAnswer result → IfSome (F.held shelf.old)
        (λ held. (word : ℕ) → (result ≡ refused word missing) ↔ NamesMissing (texts words.now) held word) }
    ensures too_long { IsAnswer result → IfSome (F.held shelf.old)
        (λ held. (word : ℕ) → (result ≡ refused word (of_the_whole TooLong)) ↔ NamesTooLong (texts words.now) held word) }
    ensures faulty { IsAnswer result → IfSome (F.held shelf.old)
        (λ held. (word : ℕ) (fault : SourceFault) → refusal_number fault.name ≤ 13
        → (result ≡ refused word fault) ↔ NamesFaulty (texts words.now) held word fault) }
    ensures duplicate { IsAnswer result → IfSome (F.held shelf.old)
        (λ held. (word other : ℕ) → (result ≡ duplicate word other) ↔ NamesTwice (texts words.now) held word other) }
    ensures done { IsAnswer result → IfSome (F.held shelf.old) (λ held. (result ≡ RunStatus.Done) ↔ NamesModules (texts words.now) held) }
    ensures read { (word : ℕ) → result ≡ RunStatus.DeviceFault (Device.Read word)
        → FailsToRead (texts words.now) (F.held shelf.old) word (F.read_faults shelf.old) (F.read_faults shelf.new) (K.written out.old) (K.written out.new) }
    ensures write { result ≡ RunStatus.DeviceFault Device.Write
        → FailsToWrite usage_line Lists (texts words.now) (F.held shelf.old) (F.read_faults shelf.old) (F.read_faults shelf.new) (K.faults out.old)
        (K.faults out.new) (K.written out.old) (K.written out.new) }
    ensures memory { result ≡ RunStatus.Memory → K.written out.new ≡ K.written out.old }
    ensures possible { IsPossible (texts words.now) result }

    // Nothing is put onto the shelf.
    ensures held { F.held shelf.new ≡ F.held shelf.old }
{
    nothing_is_left_out();
    only_listed_are_entered();
    run_program(&FlowProgram, alloc, words, shelf, out)
}
