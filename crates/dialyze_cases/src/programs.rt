//! The programs that cases run.
use crate::answers::{append_answer, append_run_answer};
use da_shelf::{Gate, MemShelf, MemSink};
use dia_session_command::dia_session;
use dialyze_command::dialyze;
use fun_flow_command::fun_flow;
use std::alloc::Global;
use std::sync::Wait;
use std::thread::Threads;
use table_verify_command::table_verify;
use type_kinds::{Bytes, Memory};
use typer_command::typer;

/// A program that a step runs.
#[derive(Clone, Copy, Debug, PartialEq, Eq)]
pub enum CaseProgram {
    /// `dialyze`
    Dialyze,
    /// `typer`
    Typer,
    /// `fun_flow`
    FunFlow,
    /// `table_verify`
    TableVerify,
    /// `dia_session`
    DiaSession,
}

impl CaseProgram {
    /// Runs the program on these words, and appends its answer.
    pub fn run<R: Threads + Wait + Sync, G: Gate + Sync>(
        self,
        rt: &R,
        alloc: Global,
        words: &[&str],
        shelf: &mut MemShelf,
        sink: &mut MemSink,
        gate: &G,
        out: &mut Bytes,
    ) -> Result<(), Memory> {
        let status = match self {
            CaseProgram::Dialyze => {
                return append_answer(dialyze(rt, alloc, words, shelf, sink, gate), out);
            }
            CaseProgram::Typer => typer(rt, alloc, words, shelf, sink, gate),
            CaseProgram::FunFlow => fun_flow(alloc, words, shelf, sink, gate),
            CaseProgram::TableVerify => table_verify(rt, alloc, words, shelf, sink, gate),
            CaseProgram::DiaSession => dia_session(rt, alloc, words, shelf, sink, gate),
        };
        append_run_answer(status, out)
    }
}
