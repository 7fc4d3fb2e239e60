//! The words, the files and the output of the host.
use crate::run_status::RunStatus;
use da_shelf::{FileShelf, StdoutSink};
use std::alloc::Global;
use std::env;
use std::io::ErrorKind;
use std::rt::{Env, Files};

/// The stack of the thread that a program carries its command out on, in bytes: the deepest text takes up to 7 MiB.
pub const STACK_SIZE: usize = 16 * 1024 * 1024;

/// The words that follow the program's name, or the status to end with where the host doesn't give them as text: `Usage`, or `Memory`.
pub fn host_words<R: Env + AllocGlobal>(rt: &R) -> Result<Vec<String>, RunStatus> {
    let mut args = match env::args(rt) {
        Ok(args) => args,
        Err(error) => {
            return Err(if error.kind() == ErrorKind::OutOfMemory {
                RunStatus::Memory
            } else {
                RunStatus::Usage
            });
        }
    };
    let _program = args.next();
    match args.collect(rt.alloc()) {
        Ok(words) => Ok(words),
        Err(_) => Err(RunStatus::Memory),
    }
}

/// The files and the standard output of the host, of which nothing has failed yet. `Memory`, the status to end with, where there is none
/// for them.
pub fn host_devices<R: Files + Print>(
    rt: &R,
    alloc: Global,
) -> Result<(FileShelf<&R>, StdoutSink<&R>), RunStatus> {
    let Ok(shelf) = FileShelf::new(rt, alloc) else {
        return Err(RunStatus::Memory);
    };
    let Ok(out) = StdoutSink::new(rt) else {
        return Err(RunStatus::Memory);
    };
    Ok((shelf, out))
}
