//! A run of the program, from the words that the host gives to the code that it takes.
ghost use Rattle.std.specs.Prelude.{◌≡◌, map};
ghost use Rattle.std.specs.String.{string_bytes};
ghost use Rattle.std.specs.Process.{exit_status};
ghost use Rattle.analysis_answers.specs.declared.run_status.RunStatus.{RunStatus as TheStatus};
ghost use Rattle.analysis_answers.specs.Codes.{run_code};
ghost use Rattle.dia_session_command.specs.Runs.{IsRun};

use crate::session::dia_session;
use analysis_answers::{RunStatus, texts_of};
use da_shelf::{Gate, Shelf, Sink};
use std::alloc::Global;
use std::process::ExitCode;
use std::sync::Wait;
use std::thread::Threads;
use type_kinds::Memory;

/// Carries out the script that these words name, as `dia_session` does, and gives the code of the status: 0 where all its lines were
/// carried out, 1 where the script is refused, 4 for the fault of a device, 5 where there was no memory left, and 6 where the words are
/// no command. The call may wait for workers; what it promises holds where it returns.
pub fn run_over<R: Threads + Wait + Sync, F: Shelf, K: Sink, G: Gate + Sync>(
    rt: &R,
    alloc: Global,
    words: &Vec<String>,
    shelf: &mut F,
    out: &mut K,
    gate: &G,
) -> ExitCode
    ensures { (status : TheStatus) × IsRun (map string_bytes words.now.items) (F.held shelf.old) (F.held shelf.new) (F.read_faults shelf.old)
        (F.read_faults shelf.new) (K.faults out.old) (K.faults out.new) status (K.written out.old) (K.written out.new)
        × (exit_status result ≡ run_code status) }
{
    let status = status_of(rt, alloc, words, shelf, out, gate);
    ExitCode::from(status.code())
}

// The status that the run ends with.
fn status_of<R: Threads + Wait + Sync, F: Shelf, K: Sink, G: Gate + Sync>(
    rt: &R,
    alloc: Global,
    words: &Vec<String>,
    shelf: &mut F,
    out: &mut K,
    gate: &G,
) -> RunStatus
    ensures { IsRun (map string_bytes words.now.items) (F.held shelf.old) (F.held shelf.new) (F.read_faults shelf.old)
        (F.read_faults shelf.new) (K.faults out.old) (K.faults out.new) result (K.written out.old) (K.written out.new) }
{
    match texts_of(alloc, words) {
        Ok(texts) => dia_session(rt, alloc, texts.as_slice(), shelf, out, gate),
        Err(Memory) => RunStatus::Memory,
    }
}
