//! The program of the cases of reports: it plays the files of cases that its words name, and prints what each run of each case
//! answered and wrote.
#![tactic(auto)]

mod answers;
mod held;
mod play;
mod programs;
mod runs;

use case_files::named_texts;
use da_shelf::{StdoutSink, give};
use play::play_texts;
use std::process::ExitCode;
use type_kinds::List;

fn main(rt: HostRuntime) -> ExitCode {
    let Ok(texts) = named_texts(&rt) else {
        return ExitCode::FAILURE;
    };
    let mut out = List::new(rt.alloc());
    if play_texts(&rt, rt.alloc(), texts.as_slice(), &mut out).is_err() {
        return ExitCode::FAILURE;
    }
    let Ok(mut sink) = StdoutSink::new(&rt) else {
        return ExitCode::FAILURE;
    };
    match give(&mut sink, out.as_slice()) {
        Ok(()) => ExitCode::SUCCESS,
        Err(_) => ExitCode::FAILURE,
    }
}
