//! The program: `run_over` on the words, the files and the output of the host.
#![tactic(auto)]

use analysis_answers::{STACK_SIZE, host_devices, host_words};
use da_shelf::OpenGate;
use dia_session_command::run_over;
use std::alloc::Global;
use std::process::ExitCode;
use std::rt::Files;
use std::sync::Wait;
use std::thread;
use std::thread::{Builder, Threads};

fn main(rt: HostRuntime) -> ExitCode {
    let words = match host_words(&rt) {
        Ok(words) => words,
        Err(status) => return ExitCode::from(status.code()),
    };
    let alloc = rt.alloc();
    let host = &rt;
    let asked = &words;
    let code = thread::scope(thread::scope_env(), host, |scope| {
        let started = Builder::new()
            .stack_size(STACK_SIZE)
            .spawn_scoped(scope, move || run(host, alloc, asked));
        match started {
            Ok(child) => Some(child.join(host)),
            Err(_) => None,
        }
    });
    // where no thread can be started, this one does the work
    match code {
        Some(code) => code,
        None => run(host, alloc, asked),
    }
}

fn run<R: Threads + Wait + Sync + Files + Print>(
    rt: &R,
    alloc: Global,
    words: &Vec<String>,
) -> ExitCode {
    match host_devices(rt, alloc) {
        Ok((mut shelf, mut out)) => run_over(rt, alloc, words, &mut shelf, &mut out, &OpenGate),
        Err(status) => ExitCode::from(status.code()),
    }
}
