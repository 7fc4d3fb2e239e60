// The top call.
ghost use Rattle.std.specs.Prelude.{◌≡◌, ◌≢◌, ◌↔◌, ◌⊎◌, ℕ, [], IfSome, IfOk, OnErr};
ghost use Rattle.table_file.specs.declared.faults.TableFault.{TableFault as FaultOfTable};
ghost use Rattle.table_file.specs.declared.faults.TableFault.TheVariants as table_fault;
ghost use Rattle.analysis_sources.specs.declared.refusals.SourceFault.{SourceFault};
ghost use Rattle.analysis_sources.specs.Refusals.{missing};
ghost use Rattle.analysis_sources.specs.Sources.{IsTooLong, IsNotScanned, IsNotParsed, IsNotAccepted};
ghost use Rattle.analysis_sources.specs.Words.{texts};
ghost use Rattle.dialyze_command.specs.Making.{PutsFirst};
ghost use Rattle.dialyze_command.specs.Words.{AsksForCheck, IsMake, IsNoCommand, IsNoMake};
ghost use Rattle.dialyze_command.specs.Lines.{refused, too_long, too_many, duplicate, faulty_table};
ghost use Rattle.dialyze_command.specs.Outcome.{Answers, ChecksTooMany, FailsToRead, FailsToReplace, FailsToWrite};
ghost use Rattle.dialyze_command.specs.Outcome.{Intended, IsAnswer, IsPassed, IsPossible, StoresNothing};
ghost use Rattle.dialyze_command.specs.Causes.{NamesMissing, NamesBadTable, NamesSource, NamesLongTable, NamesTwice};
ghost use Rattle.dialyze_command.specs.Causes.{NamesModules, IsAnalysed, tokens, grammar, scopes, step_of};
ghost use Rattle.dialyze_command.specs.Laws.{WritesFromScratch, WritesNothingFalse};
ghost use Rattle.dialyze_command.specs.Reads.{AnswersAsTold};
ghost use Rattle.dialyze_command.specs.Reported.{Reports, ComesOf};
ghost use Rattle.dialyze_command.specs.steps.ToldPlans.{RunIntended};

use crate::answer::Answer;
use crate::laws::one_outcome;
use crate::making::made;
use crate::plan::intended;
use crate::status::Status;
use crate::store::stored;
use crate::words::modules_of;
use analysis_sources::{Device, one_reading_of_files};
use da_shelf::{Gate, Shelf, Sink, SinkFault, give};
use module_flow_frame::findings_are_tied;
use sound_laws_flow::nothing_is_false;
use sound_laws_kept::{kept_is_from_scratch, reports_are_found, table_is_of_sources};
use std::alloc::Global;
use std::sync::Wait;
use std::thread::Threads;
use table_file::table_laws;
use type_kinds::Memory;

/// Carries out a command: `check [--plt T] [--out T2] [--workers N] FILE..` begins with the table that is held under T, or the
/// empty one, reads the files, analyses their modules together by N workers, from 1 to 64, puts the new table under T2, and writes a
/// line to the sink for each discrepancy that it finds: the modules in the order of the words, each module's lines in the order of
/// its text. What the table has of modules that are unchanged isn't solved again. The answer is the same whatever the number of
/// workers. Each component of functions is solved between `enter` and `leave` of the gate. The call may wait for workers; what it
/// promises holds where it returns.
///
/// - `Clean`: the sources are accepted modules with names of their own, and no report has a line.
/// - `Warnings`: they are, and the reports were written.
/// - `Usage`: the words are no command.
/// - `TableFault`: the bytes under T are no table, by their first fault (18 to 23).
/// - `Refused`: more than 1,024 files are named (24). Or the table or the file at the position `word` is the first that isn't held
///   (26). Or the file there is the first that has more than 16 MiB or more than 64 MiB with those before it (25), or is the source
///   of no accepted module: by the first fault of its tokens (1 to 4), by the first unexpected token or end (5) or the first node
///   too deep (6), or by the first broken rule of scopes and degrees (8 to 13). Or it is the first whose module has the
///   name of one before it, the earliest of them at the position `other` (14). Or a count or a length of the new table, whose name
///   is at the position `word`, doesn't fit into four bytes (25). The line that was written names the refusal and the file, and its
///   line in the source.
/// - `DeviceFault`: the shelf or the sink failed, and has counted it.
/// - `Memory`: there was no memory left, and nothing was written.
///
/// Nothing that the shelf holds changes, but for the new table under T2, which is put there whole, before the report is written,
/// and only where every other step passed.
///
/// `make N` puts N generated modules, from 1 to 1,000, onto the shelf, one after another, as `g0.core`, `g1.core` and so on,
/// analyses them together by one worker and without a table, and writes a line that says how many modules, functions and lines of
/// reports there are. What is analysed are the texts that were put; they aren't read back.
///
/// - `Warnings`: the line was written. Each generated text is that of an accepted module, so there is no refusal.
/// - `DeviceFault`: where the shelf didn't take the file of number p, those of lower numbers are held.
/// - `Memory`: the first of the files may be held.
#[tactic(auto, using(crate::proofs::CheckExits::check_exits))]
pub fn dialyze<R: Threads + Wait + Sync, F: Shelf, K: Sink, G: Gate + Sync>(
    rt: &R,
    alloc: Global,
    words: &[&str],
    shelf: &mut F,
    out: &mut K,
    gate: &G,
) -> Status
    // The headline: the status, the bytes written and what is held afterwards are those of the words and of what was held.
    ensures outcome { IsAnswer result → IfSome (F.held shelf.old)
        (λ held. Answers (texts words.now) held (F.held shelf.new) result (K.written out.old) (K.written out.new)) }

    // Over every shelf, of real files too: the run reads what it has to and no more, and status and output are those of what was read.
    ensures told { IsAnswer result →
        AnswersAsTold F.told F.reads shelf.old shelf.new (texts words.now) result (K.written out.old) (K.written out.new) }

    // With the table of some sources, they are those of an analysis from scratch, of what is passed and of the kept sources.
    ensures kept { AsksForCheck (texts words.now) → IsPassed result
        → IfSome (F.held shelf.old) (λ held. WritesFromScratch (texts words.now) held (F.held shelf.new) (K.written out.old) (K.written out.new)) }

    // Nothing that is reported is false of a run.
    ensures sound { AsksForCheck (texts words.now) → IsPassed result
        → IfSome (F.held shelf.old) (λ held. WritesNothingFalse (texts words.now) held (F.held shelf.new) (K.written out.old) (K.written out.new)) }

    // When each answer comes.
    ensures usage { IsAnswer result → (result ≡ Status.Usage) ↔ IsNoCommand (texts words.now) }
    ensures too_many { IsAnswer result → (result ≡ too_many) ↔ ChecksTooMany (texts words.now) }
    ensures missing { IsAnswer result → IfSome (F.held shelf.old) (λ held. (word : ℕ)
        → (result ≡ refused word missing) ↔ NamesMissing (texts words.now) held word) }
    ensures bad_table { IsAnswer result → IfSome (F.held shelf.old) (λ held. (fault : FaultOfTable) → fault ≢ table_fault.Memory
        → (result ≡ faulty_table fault) ↔ NamesBadTable (texts words.now) held fault) }
    ensures too_long { IsAnswer result → IfSome (F.held shelf.old) (λ held. (word : ℕ)
        → NamesSource (texts words.now) held word (λ most bytes. IsTooLong most bytes too_long) → result ≡ refused word too_long) }
    ensures only_too_long { IsAnswer result → IfSome (F.held shelf.old) (λ held. (word : ℕ) → result ≡ refused word too_long
        → NamesSource (texts words.now) held word (λ most bytes. IsTooLong most bytes too_long) ⊎ NamesLongTable (texts words.now) held word) }
    ensures not_scanned { IsAnswer result → IfSome (F.held shelf.old) (λ held. (word : ℕ) (fault : SourceFault) → step_of fault.name ≡ tokens
        → (result ≡ refused word fault) ↔ NamesSource (texts words.now) held word (λ most bytes. IsNotScanned most bytes fault)) }
    ensures not_parsed { IsAnswer result → IfSome (F.held shelf.old) (λ held. (word : ℕ) (fault : SourceFault) → step_of fault.name ≡ grammar
        → (result ≡ refused word fault) ↔ NamesSource (texts words.now) held word (λ most bytes. IsNotParsed most bytes fault)) }
    ensures not_accepted { IsAnswer result → IfSome (F.held shelf.old) (λ held. (word : ℕ) (fault : SourceFault) → step_of fault.name ≡ scopes
        → (result ≡ refused word fault) ↔ NamesSource (texts words.now) held word (λ most bytes. IsNotAccepted most bytes fault)) }
    ensures duplicate { IsAnswer result → IfSome (F.held shelf.old) (λ held. (word other : ℕ)
        → (result ≡ duplicate word other) ↔ NamesTwice (texts words.now) held word other) }
    ensures checked { IsAnswer result → IfSome (F.held shelf.old) (λ held. IsAnalysed (texts words.now) held result
        ↔ NamesModules (texts words.now) held) }
    ensures clean { IsAnswer result → IfSome (F.held shelf.old)
        (λ held. ComesOf (texts words.now) held (result ≡ Status.Clean) (Reports (texts words.now) held (λ lines. lines ≡ []))) }
    ensures warned { IsAnswer result → IfSome (F.held shelf.old)
        (λ held. ComesOf (texts words.now) held (result ≡ Status.Warnings) (Reports (texts words.now) held (λ lines. lines ≢ [])
        ⊎ ((count : ℕ) × IsMake (texts words.now) count))) }
    ensures makes { IsAnswer result → (count : ℕ) → IsMake (texts words.now) count → result ≡ Status.Warnings }
    ensures read { (word : ℕ) → result ≡ Status.DeviceFault (Device.Read word)
        → FailsToRead (texts words.now) (F.held shelf.old) word (F.read_faults shelf.old) (F.read_faults shelf.new) (K.written out.old) (K.written out.new) }
    ensures replace { (word : ℕ) → result ≡ Status.DeviceFault (Device.Replace word)
        → FailsToReplace (texts words.now) (F.held shelf.old) (F.held shelf.new) word (F.replace_faults shelf.old) (F.replace_faults shelf.new)
        (K.written out.old) (K.written out.new) }
    ensures write { result ≡ Status.DeviceFault Device.Write
        → FailsToWrite (texts words.now) (F.held shelf.old) (F.held shelf.new) (F.read_faults shelf.old) (F.read_faults shelf.new)
        (F.replace_faults shelf.old) (F.replace_faults shelf.new) (K.faults out.old) (K.faults out.new) (K.written out.old) (K.written out.new) }
    ensures memory { result ≡ Status.Memory → K.written out.new ≡ K.written out.old }
    ensures possible { IsPossible (texts words.now) result }

    // What stays of a check, unless the new table was put onto the shelf.
    ensures held { IsNoMake (texts words.now) → StoresNothing result → F.held shelf.new ≡ F.held shelf.old }

    // What stands of a make that had no memory left: the first of its files.
    ensures unfinished { (count : ℕ) → IsMake (texts words.now) count → result ≡ Status.Memory
        → PutsFirst count (F.held shelf.old) (F.held shelf.new) }
{
    one_reading_of_files();
    table_laws();
    kept_is_from_scratch();
    table_is_of_sources();
    reports_are_found();
    nothing_is_false();
    findings_are_tied();
    one_outcome();
    let Answer { status, output } = match answered(rt, alloc, words, shelf, gate) {
        Ok(answer) => answer,
        Err(Memory) => return Status::Memory,
    };
    match give(out, output.as_slice()) {
        Ok(()) => status,
        Err(SinkFault::Failed) => Status::DeviceFault(Device::Write),
    }
}

// What a run is to answer, after all was put onto the shelf.
fn answered<R: Threads + Wait + Sync, F: Shelf, G: Gate + Sync>(
    rt: &R,
    alloc: Global,
    words: &[&str],
    shelf: &mut F,
    gate: &G,
) -> Result<Answer, Memory>
    ensures intended { IfOk result (λ a. Intended (texts words.now) (F.held shelf.old) (F.read_faults shelf.old) (F.read_faults shelf.new)
        (F.replace_faults shelf.old) (F.replace_faults shelf.new) a.status a.output (F.held shelf.new)) }
    ensures told { IfOk result (λ a. RunIntended F.told F.reads shelf.old shelf.new (texts words.now)
        (F.read_faults shelf.old) (F.read_faults shelf.new) (F.replace_faults shelf.old) (F.replace_faults shelf.new) a.status a.output) }
    ensures memory { OnErr result (IsNoMake (texts words.now) → F.held shelf.new ≡ F.held shelf.old) }
    ensures unfinished { OnErr result ((count : ℕ) → IsMake (texts words.now) count → PutsFirst count (F.held shelf.old) (F.held shelf.new)) }
{
    match modules_of(words) {
        Some(count) => made(rt, alloc, count, shelf, gate),
        None => checked(rt, alloc, words, shelf, gate),
    }
}

// The same of a check, or of words that are no command, after the new table was put onto the shelf, if there is one. Behind the plan
// only this takes memory.
fn checked<R: Threads + Wait + Sync, F: Shelf, G: Gate + Sync>(
    rt: &R,
    alloc: Global,
    words: &[&str],
    shelf: &mut F,
    gate: &G,
) -> Result<Answer, Memory>
    requires { IsNoMake (texts words.now) }
    ensures intended { IfOk result (λ a. Intended (texts words.now) (F.held shelf.old) (F.read_faults shelf.old) (F.read_faults shelf.new)
        (F.replace_faults shelf.old) (F.replace_faults shelf.new) a.status a.output (F.held shelf.new)) }
    ensures told { IfOk result (λ a. RunIntended F.told F.reads shelf.old shelf.new (texts words.now)
        (F.read_faults shelf.old) (F.read_faults shelf.new) (F.replace_faults shelf.old) (F.replace_faults shelf.new) a.status a.output) }
    ensures memory { OnErr result (F.held shelf.new ≡ F.held shelf.old) }
{
    let plan = intended(rt, alloc, words, shelf, gate)?;
    stored(words, plan, shelf)
}
