//! The program of the cases of constraints: it plays the files of cases that its words name, and prints what narrowing, solving, the table of
//! built-in functions and the table of what is known of functions answer.
#![tactic(auto)]

mod built_ins;
mod callees;
mod constraints;
mod environments;
mod narrowed;
mod parts;
mod play;
mod solved;
mod texts;

use case_files::named_texts;
use da_shelf::{StdoutSink, give};
use play::play_texts;
use std::process::ExitCode;
use type_kinds::List;

fn main(rt: HostRuntime) -> ExitCode {
    let Ok(texts) = named_texts(&rt) else {
        return ExitCode::FAILURE;
    };
    let mut out = List::new(rt.alloc());
    if play_texts(rt.alloc(), texts.as_slice(), &mut out).is_err() {
        return ExitCode::FAILURE;
    }
    let Ok(mut sink) = StdoutSink::new(&rt) else {
        return ExitCode::FAILURE;
    };
    match give(&mut sink, out.as_slice()) {
        Ok(()) => ExitCode::SUCCESS,
        Err(_) => ExitCode::FAILURE,
    }
}
