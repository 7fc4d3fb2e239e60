//! Modules that are solved, and the typings of their functions.
ghost use Rattle.std.specs.Prelude.{◌≤◌};

use crate::written::append_typings;
use analysis_crew::solve_modules_parallel;
use analysis_sources::{discard_sources, read_sources};
use case_files::words_of;
use cons_tree::Summaries;
use core_scope::check_set;
use da_shelf::{MemShelf, OpenGate};
use std::alloc::Global;
use std::sync::Wait;
use std::thread::Threads;
use table_keep::Source;
use type_kinds::{Bytes, List, Memory};

/// No more files are read together.
pub const MOST_FILES: usize = 1000;

/// Appends the typings of the modules that these files spell, group by group: each group is solved over what is known of those before.
pub fn typings<R: Threads + Wait + Sync>(
    rt: &R,
    alloc: Global,
    groups: &str,
    workers: u32,
    shelf: &mut MemShelf,
    out: &mut Bytes,
) -> Result<(), Memory>
    requires least { 1 ≤ workers }
    requires most { workers ≤ 64 }
{
    let mut known = Summaries::new(alloc);
    let answer = groups_over(rt, alloc, groups, workers, shelf, &mut known, out);
    drop(known);
    answer
}

fn groups_over<R: Threads + Wait + Sync>(
    rt: &R,
    alloc: Global,
    groups: &str,
    workers: u32,
    shelf: &mut MemShelf,
    known: &mut Summaries,
    out: &mut Bytes,
) -> Result<(), Memory>
    requires least { 1 ≤ workers }
    requires most { workers ≤ 64 }
{
    for group in groups.split(" then ") {
        let names = words_of(alloc, group)?;
        match sources_of(alloc, names.as_slice(), shelf) {
            Some(sources) => {
                let answer = typed_over(rt, alloc, sources.as_slice(), workers, known, out);
                discard_sources(sources);
                answer?;
            }
            None => out.append(b"these files aren't read\n")?,
        }
    }
    Ok(())
}

/// The sources that these files are, if they are.
pub fn sources_of(alloc: Global, names: &[&str], shelf: &mut MemShelf) -> Option<List<Source>> {
    if names.is_empty() || names.len() > MOST_FILES {
        return None;
    }
    match read_sources(alloc, names, 0, shelf) {
        Ok(sources) => Some(sources),
        Err(_) => None,
    }
}

fn typed_over<R: Threads + Wait + Sync>(
    rt: &R,
    alloc: Global,
    sources: &[Source],
    workers: u32,
    known: &mut Summaries,
    out: &mut Bytes,
) -> Result<(), Memory>
    requires least { 1 ≤ workers }
    requires most { workers ≤ 64 }
{
    solve_over(rt, alloc, sources, workers, known)?;
    for source in sources {
        append_typings(known, source.checked.module(), out)?;
    }
    Ok(())
}

/// Solves modules over what is known; `Memory`, too, where they are too many or two have one name.
pub fn solve_over<R: Threads + Wait + Sync>(
    rt: &R,
    alloc: Global,
    sources: &[Source],
    workers: u32,
    known: &mut Summaries,
) -> Result<(), Memory>
    requires least { 1 ≤ workers }
    requires most { workers ≤ 64 }
{
    if sources.len() > MOST_FILES {
        return Err(Memory);
    }
    if let Err(_) = check_set(sources) {
        return Err(Memory);
    }
    match solve_modules_parallel(rt, alloc, sources, known, workers, &OpenGate) {
        Ok(_) => Ok(()),
        Err(Memory) => Err(Memory),
    }
}
