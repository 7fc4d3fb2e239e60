//! The top call.
ghost use Rattle.std.specs.Prelude.{◌≡◌, ◌↔◌, ◌≤◌, ℕ, IfOk, IfSome};
ghost use Rattle.analysis_sources.specs.declared.refusals.RefusalName.TheVariants.{TooLong};
ghost use Rattle.analysis_sources.specs.Refusals.{missing};
ghost use Rattle.analysis_sources.specs.Sources.{of_the_whole};
ghost use Rattle.analysis_sources.specs.Words.{texts};
ghost use Rattle.analysis_answers.specs.FileRuns.{refused, IsAnswer};
ghost use Rattle.dia_session_command.specs.Causes.{HasBadLine, HasGoodScript, HasLongScript, IsPossible, LacksScript};
ghost use Rattle.dia_session_command.specs.Lines.{bad_line};
ghost use Rattle.dia_session_command.specs.Session.{Answers, FailsToRead, FailsToWrite, ReadsScript, StopsShort};
ghost use Rattle.dia_session_command.specs.Words.{IsNoCommand};
ghost use Rattle.dia_session_command.specs.steps.Ending.{Ends, EndsScript, IsSaid, IsScriptRead};

use crate::carrying::carry_out;
use crate::lines::refuse_line;
use crate::script::{ScriptFault, script_lines};
use crate::words::{SessionCommand, command_of};
use analysis_answers::{RunAnswer, RunStatus, refuse, unread, usage};
use analysis_sources::{Device, LONGEST_SOURCE, MISSING, TOO_LONG};
use da_shelf::{Gate, Shelf, ShelfFault, Sink, SinkFault, give};
use std::alloc::Global;
use std::sync::Wait;
use std::thread::Threads;
use type_kinds::Memory;

/// What reading the script gives.
#[derive(Drop)]
pub enum ScriptRead {
    /// Its bytes, which aren't too many.
    Reads(Vec<u8>),
    /// What the run answers.
    Says(RunAnswer),
}

/// Carries out the script that the words name, which are `[--workers N] SCRIPT`. Its lines are `replace FILE`, `drop FILE` and `ask`, and
/// all are tested before the first is carried out. Nothing is held at first. What a line gives is written before the next is carried out:
/// `ok` for an edit that was made, the line of the refusal for one that wasn't, and for `ask` the reports on all modules that are held, in
/// the order of the files, and `asked`; they are those of an analysis from nothing. Nothing that the shelf holds changes. The call may
/// wait for workers; what it promises holds where it returns.
///
/// - `Done`: all lines were carried out.
/// - `Usage`: the words are no command; the usage line was written.
/// - `Refused`: the script, the word at the position `word`, isn't held (26), has more than 16 MiB (25), or has a bad line, of which `line`
///   is the first (33). No line was carried out, and the line that was written names the refusal. What is refused in a session is told by
///   its lines alone.
/// - `DeviceFault`: the shelf or the sink failed, and has counted it. `Read` has the number of the line whose file wasn't read, or the
///   position of the script among the words; and what was written is what the lines before gave, and the line of the fault. Where the
///   sink failed it is a prefix of what was to be written.
/// - `Memory`: there was no memory left, and what was written is what some first lines gave.
pub fn dia_session<R: Threads + Wait + Sync, F: Shelf, K: Sink, G: Gate + Sync>(
    rt: &R,
    alloc: Global,
    words: &[&str],
    shelf: &mut F,
    out: &mut K,
    gate: &G,
) -> RunStatus
    // The headline: the status and the bytes written are those of the words, of what is held, and of the script.
    ensures outcome { IsAnswer result → IfSome (F.held shelf.old) (λ held. Answers (texts words.now) held result (K.written out.old) (K.written out.new)) }

    // When each answer comes.
    ensures usage { IsAnswer result → (result ≡ RunStatus.Usage) ↔ IsNoCommand (texts words.now) }
    ensures missing { IsAnswer result → IfSome (F.held shelf.old)
        (λ held. (word : ℕ) → (result ≡ refused word missing) ↔ LacksScript (texts words.now) held word) }
    ensures too_long { IsAnswer result → IfSome (F.held shelf.old)
        (λ held. (word : ℕ) → (result ≡ refused word (of_the_whole TooLong)) ↔ HasLongScript (texts words.now) held word) }
    ensures bad_line { IsAnswer result → IfSome (F.held shelf.old)
        (λ held. (word number : ℕ) → (result ≡ bad_line word number) ↔ HasBadLine (texts words.now) held word number) }
    ensures done { IsAnswer result → IfSome (F.held shelf.old) (λ held. (result ≡ RunStatus.Done) ↔ HasGoodScript (texts words.now) held) }
    ensures read { (number : ℕ) → result ≡ RunStatus.DeviceFault (Device.Read number)
        → FailsToRead (texts words.now) (F.held shelf.old) number (F.read_faults shelf.old) (F.read_faults shelf.new) (K.written out.old)
        (K.written out.new) }
    ensures write { result ≡ RunStatus.DeviceFault Device.Write
        → FailsToWrite (texts words.now) (F.held shelf.old) (F.read_faults shelf.old) (F.read_faults shelf.new)
        (K.faults out.old) (K.faults out.new) (K.written out.old) (K.written out.new) }
    ensures memory { result ≡ RunStatus.Memory → StopsShort (texts words.now) (F.held shelf.old) (K.written out.old) (K.written out.new) }
    ensures possible { IsPossible (texts words.now) result }

    // Nothing is put onto the shelf.
    ensures held { F.held shelf.new ≡ F.held shelf.old }
{
    ended(rt, alloc, words, shelf, out, gate)
}

// The same, by what the run did.
fn ended<R: Threads + Wait + Sync, F: Shelf, K: Sink, G: Gate + Sync>(
    rt: &R,
    alloc: Global,
    words: &[&str],
    shelf: &mut F,
    out: &mut K,
    gate: &G,
) -> RunStatus
    ensures ends { Ends (texts words.now) (F.held shelf.old) (F.read_faults shelf.old) (F.read_faults shelf.new)
        (K.faults out.old) (K.faults out.new) (K.written out.old) (K.written out.new) result }
    ensures held { F.held shelf.new ≡ F.held shelf.old }
{
    match command_of(words) {
        Some(command) => run(rt, alloc, command, shelf, out, gate),
        None => match usage(alloc, "usage: dia_session [--workers N] SCRIPT") {
            Ok(answer) => say(out, &answer),
            Err(Memory) => RunStatus::Memory,
        },
    }
}

// Carries out the script that a command names.
fn run<R: Threads + Wait + Sync, F: Shelf, K: Sink, G: Gate + Sync>(
    rt: &R,
    alloc: Global,
    command: SessionCommand<'_>,
    shelf: &mut F,
    out: &mut K,
    gate: &G,
) -> RunStatus
    requires least { 1 ≤ command.workers }
    requires most { command.workers ≤ 64 }
    ensures ends { EndsScript (F.held shelf.old) command.entry.script.now command.entry.word (F.read_faults shelf.old)
        (F.read_faults shelf.new) (K.faults out.old) (K.faults out.new) (K.written out.old) (K.written out.new) result }
    ensures held { F.held shelf.new ≡ F.held shelf.old }
{
    match read_script(alloc, command.script, command.word, shelf) {
        Ok(ScriptRead::Reads(bytes)) => {
            carry_script(rt, alloc, command, bytes.as_slice(), shelf, out, gate)
        }
        Ok(ScriptRead::Says(answer)) => say(out, &answer),
        Err(Memory) => RunStatus::Memory,
    }
}

// Reads a script, the word at this position.
fn read_script<F: Shelf>(
    alloc: Global,
    script: &str,
    word: u32,
    shelf: &mut F,
) -> Result<ScriptRead, Memory>
    ensures read { IfOk result (IsScriptRead (F.held shelf.old) script.now word (F.read_faults shelf.old) (F.read_faults shelf.new)) }
    ensures held { F.held shelf.new ≡ F.held shelf.old }
    ensures counted { F.read_faults shelf.old ≤ F.read_faults shelf.new }
{
    match shelf.read(script) {
        Ok(bytes) => {
            if bytes.len() > LONGEST_SOURCE {
                let answer = refuse(alloc, script, word, TOO_LONG)?;
                return Ok(ScriptRead::Says(answer));
            }
            Ok(ScriptRead::Reads(bytes))
        }
        Err(ShelfFault::Missing) => {
            let answer = refuse(alloc, script, word, MISSING)?;
            Ok(ScriptRead::Says(answer))
        }
        Err(ShelfFault::Failed) => {
            let answer = unread(alloc, script, word)?;
            Ok(ScriptRead::Says(answer))
        }
        Err(ShelfFault::Memory) => Err(Memory),
    }
}

// Carries out a script that is read as these bytes, if all its lines are good.
fn carry_script<R: Threads + Wait + Sync, F: Shelf, K: Sink, G: Gate + Sync>(
    rt: &R,
    alloc: Global,
    command: SessionCommand<'_>,
    bytes: &[u8],
    shelf: &mut F,
    out: &mut K,
    gate: &G,
) -> RunStatus
    requires least { 1 ≤ command.workers }
    requires most { command.workers ≤ 64 }
    requires read { ReadsScript (F.held shelf.old) command.script.now bytes.now }
    ensures ends { EndsScript (F.held shelf.old) command.entry.script.now command.entry.word (F.read_faults shelf.old)
        (F.read_faults shelf.new) (K.faults out.old) (K.faults out.new) (K.written out.old) (K.written out.new) result }
    ensures held { F.held shelf.new ≡ F.held shelf.old }
{
    let workers = command.workers;
    match script_lines(alloc, bytes) {
        Ok(lines) => carry_out(rt, alloc, lines.as_slice(), workers, shelf, out, gate),
        Err(ScriptFault::BadLine(number)) => {
            match refuse_line(alloc, command.script, command.word, number) {
                Ok(answer) => say(out, &answer),
                Err(Memory) => RunStatus::Memory,
            }
        }
        Err(ScriptFault::Memory) => RunStatus::Memory,
    }
}

// Writes an answer.
fn say<K: Sink>(out: &mut K, answer: &RunAnswer) -> RunStatus
    ensures { IsSaid answer.now.status answer.now.output (K.faults out.old) (K.faults out.new) (K.written out.old) (K.written out.new) result }
{
    match give(out, answer.output.as_slice()) {
        Ok(()) => answer.status,
        Err(SinkFault::Failed) => RunStatus::DeviceFault(Device::Write),
    }
}
