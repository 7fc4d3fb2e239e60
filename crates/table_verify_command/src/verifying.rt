//! The top call.
ghost use Rattle.std.specs.Prelude.{◌≡◌, ◌≢◌, ◌↔◌, ◌⊎◌, ℕ, ◌≤◌, IfOk, IfSome, OnErr};
ghost use Rattle.table_file.specs.declared.faults.TableFault.{TableFault as FaultOfTable};
ghost use Rattle.table_file.specs.declared.faults.TableFault.TheVariants as table_fault;
ghost use Rattle.analysis_sources.specs.declared.refusals.SourceFault.{SourceFault};
ghost use Rattle.analysis_sources.specs.Refusals.{missing, refusal_number};
ghost use Rattle.analysis_sources.specs.Words.{texts};
ghost use Rattle.analysis_answers.specs.FileRuns.{IsAnswer, duplicate, refused, too_many};
ghost use Rattle.analysis_answers.specs.Tables.{faulty_table};
ghost use Rattle.table_verify_laws.specs.Rules.{TableRule};
ghost use Rattle.table_verify_command.specs.Causes.{NamesBadTable, NamesBroken, NamesCertificate, NamesFaulty, NamesGood, NamesLongCertificate};
ghost use Rattle.table_verify_command.specs.Causes.{NamesMissing, NamesTooLong, NamesTwice, StoresCertificate};
ghost use Rattle.table_verify_command.specs.Lines.{rejected, too_long};
ghost use Rattle.table_verify_command.specs.Outcome.{Answers, FailsToRead, FailsToReplace, FailsToWrite, Intended, IsPossible, StoresNothing};
ghost use Rattle.table_verify_command.specs.Runs.{AsksForCheck, AsksForMake};
ghost use Rattle.table_verify_command.specs.Words.{IsNoCommand, NamesTooMany};

use crate::checking::checked;
use crate::making::made;
use crate::words::{Task, task_of};
use analysis_answers::{MOST_FILES, RunAnswer, RunStatus, refuse_many, usage};
use analysis_sources::{Device, one_reading_of_files};
use da_shelf::{Gate, Shelf, Sink, SinkFault, give};
use std::alloc::Global;
use std::sync::Wait;
use std::thread::Threads;
use table_file::table_laws;
use table_verify_laws::{one_certificate, one_first_rule, rules_are_sound};
use type_kinds::Memory;

/// Carries out a command. `make CERT FILE..` reads the files, 1 to 1,024, analyses their modules together, puts their certificate onto the
/// shelf under CERT, and writes nothing: a table that lists all functions of each module with their summaries. `check T CERT FILE..` reads
/// the table that is held under T, the certificate under CERT and the files, and says whether each summary of the table is a success typing of
/// the files' modules, by the certificate: what the one says isn't believed, and nothing is asked of who made them. The call may wait for
/// workers; what it promises holds where it returns.
///
/// - `Done`: the certificate was put onto the shelf; or the table is right, and `accepted` was written. Then each of its summaries is true
///   of every run of the modules.
/// - `Usage`: the words are no command; the usage line was written.
/// - `TableFault`: the bytes under T, or those under CERT in a check, are no table, by their first fault (18 to 23).
/// - `Refused`: more than 1,024 files are named (24). Or the table or the file at the position `word` is the first that isn't held (26).
///   Or the file there is the first that has more than 16 MiB or more than 64 MiB with those before it (25), or that is the source of no
///   accepted module (1 to 13, by its first fault). Or it is the first whose module has the name of one before it, the earliest of them at
///   the position `other` (14). Or a count or a length of the certificate, whose name is at the position `word`, doesn't fit into four bytes
///   (25). Or the table is rejected (29 to 32): the rule of this number is the first that is broken, and the line `rejected 32 NotClosed 'm'`
///   names it with the least module that breaks it. The line that was written names the refusal.
/// - `DeviceFault`: the shelf or the sink failed, and has counted it.
/// - `Memory`: there was no memory left, and nothing was written.
///
/// Nothing that the shelf holds changes, but for the certificate of a `make`, which is put there whole, and only where every other step
/// passed.
pub fn table_verify<R: Threads + Wait + Sync, F: Shelf, K: Sink, G: Gate + Sync>(
    rt: &R,
    alloc: Global,
    words: &[&str],
    shelf: &mut F,
    out: &mut K,
    gate: &G,
) -> RunStatus
    // The headline: the status, the bytes written and what is held afterwards are those of the words and of what was held.
    ensures outcome { IsAnswer result → IfSome (F.held shelf.old)
        (λ held. Answers (texts words.now) held (F.held shelf.new) result (K.written out.old) (K.written out.new)) }

    // Each summary of an accepted table is true of every run, whoever made the table.
    ensures sound { AsksForCheck (texts words.now) → result ≡ RunStatus.Done → IfSome (F.held shelf.old) (λ held. NamesGood (texts words.now) held) }

    // A certificate that was made is held, whole.
    ensures stores { AsksForMake (texts words.now) → result ≡ RunStatus.Done
        → IfSome (F.held shelf.old) (λ held. StoresCertificate (texts words.now) held (F.held shelf.new)) }

    // When each answer comes.
    ensures usage { IsAnswer result → (result ≡ RunStatus.Usage) ↔ IsNoCommand (texts words.now) }
    ensures too_many { IsAnswer result → (result ≡ too_many) ↔ NamesTooMany (texts words.now) }
    ensures missing { IsAnswer result → IfSome (F.held shelf.old)
        (λ held. (word : ℕ) → (result ≡ refused word missing) ↔ NamesMissing (texts words.now) held word) }
    ensures bad_table { IsAnswer result → IfSome (F.held shelf.old)
        (λ held. (fault : FaultOfTable) → fault ≢ table_fault.Memory → (result ≡ faulty_table fault) ↔ NamesBadTable (texts words.now) held fault) }
    ensures too_long { IsAnswer result → IfSome (F.held shelf.old)
        (λ held. (word : ℕ) → (result ≡ refused word too_long)
        ↔ (NamesTooLong (texts words.now) held word ⊎ NamesLongCertificate (texts words.now) held word)) }
    ensures faulty { IsAnswer result → IfSome (F.held shelf.old)
        (λ held. (word : ℕ) (fault : SourceFault) → refusal_number fault.name ≤ 13
        → (result ≡ refused word fault) ↔ NamesFaulty (texts words.now) held word fault) }
    ensures duplicate { IsAnswer result → IfSome (F.held shelf.old)
        (λ held. (word other : ℕ) → (result ≡ duplicate word other) ↔ NamesTwice (texts words.now) held word other) }
    ensures rejected { IsAnswer result → IfSome (F.held shelf.old) (λ held. (r : TableRule)
        → (result ≡ rejected r) ↔ NamesBroken (texts words.now) held r) }
    ensures done { IsAnswer result → IfSome (F.held shelf.old)
        (λ held. (result ≡ RunStatus.Done) ↔ (NamesGood (texts words.now) held ⊎ NamesCertificate (texts words.now) held)) }
    ensures read { (word : ℕ) → result ≡ RunStatus.DeviceFault (Device.Read word)
        → FailsToRead (texts words.now) (F.held shelf.old) word (F.read_faults shelf.old) (F.read_faults shelf.new) (K.written out.old) (K.written out.new) }
    ensures replace { (word : ℕ) → result ≡ RunStatus.DeviceFault (Device.Replace word)
        → FailsToReplace (texts words.now) (F.held shelf.old) (F.held shelf.new) word (F.replace_faults shelf.old) (F.replace_faults shelf.new)
        (K.written out.old) (K.written out.new) }
    ensures write { result ≡ RunStatus.DeviceFault Device.Write
        → FailsToWrite (texts words.now) (F.held shelf.old) (F.held shelf.new) (F.read_faults shelf.old) (F.read_faults shelf.new)
        (F.replace_faults shelf.old) (F.replace_faults shelf.new) (K.faults out.old) (K.faults out.new) (K.written out.old) (K.written out.new) }
    ensures memory { result ≡ RunStatus.Memory → K.written out.new ≡ K.written out.old }
    ensures possible { IsPossible (texts words.now) result }

    // What stays, unless a certificate was put onto the shelf.
    ensures held { StoresNothing result → F.held shelf.new ≡ F.held shelf.old }
{
    one_reading_of_files();
    table_laws();
    one_certificate();
    one_first_rule();
    rules_are_sound();
    let RunAnswer { status, output } = match answered(rt, alloc, words, shelf, gate) {
        Ok(answer) => answer,
        Err(Memory) => return RunStatus::Memory,
    };
    match give(out, output.as_slice()) {
        Ok(()) => status,
        Err(SinkFault::Failed) => RunStatus::DeviceFault(Device::Write),
    }
}

// What a run is to answer, after all was put onto the shelf.
fn answered<R: Threads + Wait + Sync, F: Shelf, G: Gate + Sync>(
    rt: &R,
    alloc: Global,
    words: &[&str],
    shelf: &mut F,
    gate: &G,
) -> Result<RunAnswer, Memory>
    ensures intended { IfOk result (λ a. Intended (texts words.now) (F.held shelf.old) (F.read_faults shelf.old) (F.read_faults shelf.new)
        (F.replace_faults shelf.old) (F.replace_faults shelf.new) a.status a.output (F.held shelf.new)) }
    ensures memory { OnErr result (F.held shelf.new ≡ F.held shelf.old) }
{
    let Some(task) = task_of(words) else {
        return usage(
            alloc,
            "usage: table_verify make CERT FILE.. | check T CERT FILE..",
        );
    };
    if words.len() - task.first_file() > MOST_FILES {
        return refuse_many(alloc);
    }
    match task {
        Task::Make => made(rt, alloc, words, shelf, gate),
        Task::Check => checked(alloc, words, shelf),
    }
}
