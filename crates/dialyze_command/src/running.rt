//! A run of the program, from the words that the host gives to the code that it takes.
ghost use Rattle.std.specs.Prelude.{◌≡◌, map};
ghost use Rattle.std.specs.String.{string_bytes};
ghost use Rattle.std.specs.Process.{exit_status};
ghost use Rattle.dialyze_command.specs.declared.status.Status.{Status as TheStatus};
ghost use Rattle.dialyze_command.specs.Codes.{code_of};
ghost use Rattle.dialyze_command.specs.Outcome.{IsAnswer};
ghost use Rattle.dialyze_command.specs.Reads.{AnswersAsTold};
ghost use Rattle.dialyze_command.specs.Runs.{IsRun};

use crate::check::dialyze;
use crate::status::Status;
use analysis_answers::texts_of;
use da_shelf::{Gate, Shelf, Sink};
use std::alloc::Global;
use std::process::ExitCode;
use std::sync::Wait;
use std::thread::Threads;
use type_kinds::Memory;

/// Carries out the command that these words are, on this shelf and this sink, as `dialyze` does, and gives the code of the status: 0
/// where nothing was found, 1 for a refusal, 2 where a report was written, 3 for a table that is none, 4 for the fault of a device, 5
/// where there was no memory left, and 6 where the words are no command. The call may wait for workers; what it promises holds where
/// it returns.
pub fn run_over<R: Threads + Wait + Sync, F: Shelf, K: Sink, G: Gate + Sync>(
    rt: &R,
    alloc: Global,
    words: &Vec<String>,
    shelf: &mut F,
    out: &mut K,
    gate: &G,
) -> ExitCode
    ensures { (status : TheStatus)
        × IsRun (map string_bytes words.now.items) (F.held shelf.old) (F.held shelf.new)
        (F.read_faults shelf.old) (F.read_faults shelf.new) (F.replace_faults shelf.old) (F.replace_faults shelf.new)
        (K.faults out.old) (K.faults out.new) status (K.written out.old) (K.written out.new)
        × (IsAnswer status →
        AnswersAsTold F.told F.reads shelf.old shelf.new (map string_bytes words.now.items) status (K.written out.old) (K.written out.new))
        × (exit_status result ≡ code_of status) }
{
    let status = status_of(rt, alloc, words, shelf, out, gate);
    ExitCode::from(status.code())
}

// The status that the run ends with.
fn status_of<R: Threads + Wait + Sync, F: Shelf, K: Sink, G: Gate + Sync>(
    rt: &R,
    alloc: Global,
    words: &Vec<String>,
    shelf: &mut F,
    out: &mut K,
    gate: &G,
) -> Status
    ensures run { IsRun (map string_bytes words.now.items) (F.held shelf.old) (F.held shelf.new)
        (F.read_faults shelf.old) (F.read_faults shelf.new) (F.replace_faults shelf.old) (F.replace_faults shelf.new)
        (K.faults out.old) (K.faults out.new) result (K.written out.old) (K.written out.new) }
    ensures told { IsAnswer result →
        AnswersAsTold F.told F.reads shelf.old shelf.new (map string_bytes words.now.items) result (K.written out.old) (K.written out.new) }
{
    match texts_of(alloc, words) {
        Ok(texts) => dialyze(rt, alloc, texts.as_slice(), shelf, out, gate),
        Err(Memory) => Status::Memory,
    }
}
