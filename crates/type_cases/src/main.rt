//! The program of the cases of types: it plays the files of cases that its words name, and prints what the calls on types answer.
#![tactic(auto)]

mod agreement;
mod bytes;
mod elements;
mod numbers;
mod play;
mod rows;
mod sets;
mod threads;
mod values;

use case_files::named_texts;
use da_shelf::{StdoutSink, give};
use play::play_texts;
use std::process::ExitCode;
use type_kinds::List;

fn main(rt: HostRuntime) -> ExitCode {
    let Ok(texts) = named_texts(&rt) else {
        return ExitCode::FAILURE;
    };
    let mut out = List::new(rt.alloc());
    if play_texts(&rt, rt.alloc(), texts.as_slice(), &mut out).is_err() {
        return ExitCode::FAILURE;
    }
    let Ok(mut sink) = StdoutSink::new(&rt) else {
        return ExitCode::FAILURE;
    };
    match give(&mut sink, out.as_slice()) {
        Ok(()) => ExitCode::SUCCESS,
        Err(_) => ExitCode::FAILURE,
    }
}
