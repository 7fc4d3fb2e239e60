//! The program of the cases of listings: it plays the files of cases that its words name, and prints the tokens, the trees, the canonical
//! texts and the faults of their texts, and the components and the calls of their modules.
#![tactic(auto)]

mod calls;
mod faults;
mod graphs;
mod play;
mod reading;
mod rows;
mod token_changes;
mod tokens;
mod tree_texts;

use case_files::named_texts;
use da_shelf::{StdoutSink, give};
use play::play_texts;
use std::process::ExitCode;
use type_kinds::List;

fn main(rt: HostRuntime) -> ExitCode {
    let Ok(texts) = named_texts(&rt) else {
        return ExitCode::FAILURE;
    };
    let mut out = List::new(rt.alloc());
    if play_texts(rt.alloc(), texts.as_slice(), &mut out).is_err() {
        return ExitCode::FAILURE;
    }
    let Ok(mut sink) = StdoutSink::new(&rt) else {
        return ExitCode::FAILURE;
    };
    match give(&mut sink, out.as_slice()) {
        Ok(()) => ExitCode::SUCCESS,
        Err(_) => ExitCode::FAILURE,
    }
}
