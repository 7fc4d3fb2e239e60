//! By any number of workers the answer is that of one thread without a board.
ghost use Rattle.std.specs.Prelude.{◌≤◌};

use crate::solved::{MOST_FILES, solve_over, sources_of};
use analysis_sources::discard_sources;
use analysis_summaries::solve_modules;
use case_files::words_of;
use cons_tree::{Callee, Summaries};
use core_ast::{FunName, Module};
use core_scope::check_set;
use da_shelf::MemShelf;
use std::alloc::Global;
use std::sync::Wait;
use std::thread::Threads;
use table_keep::Source;
use type_kinds::{Atom, Bytes, List, Memory};

/// Solves the modules of these files on one thread without a board, and appends whether 1, 2 and 64 workers give the same, and what each
/// of them gives for these names, a line each.
pub fn alike<R: Threads + Wait + Sync>(
    rt: &R,
    alloc: Global,
    files: &str,
    names: &str,
    shelf: &mut MemShelf,
    out: &mut Bytes,
) -> Result<(), Memory> {
    let files = words_of(alloc, files)?;
    match sources_of(alloc, files.as_slice(), shelf) {
        Some(sources) => {
            let answer = alike_of(rt, alloc, sources.as_slice(), names, out);
            discard_sources(sources);
            answer
        }
        None => out.append(b"these files aren't read\n"),
    }
}

fn alike_of<R: Threads + Wait + Sync>(
    rt: &R,
    alloc: Global,
    sources: &[Source],
    names: &str,
    out: &mut Bytes,
) -> Result<(), Memory> {
    let mut one = Summaries::new(alloc);
    let answer = alike_by_each(rt, alloc, sources, names, &mut one, out);
    drop(one);
    answer
}

fn alike_by_each<R: Threads + Wait + Sync>(
    rt: &R,
    alloc: Global,
    sources: &[Source],
    names: &str,
    one: &mut Summaries,
    out: &mut Bytes,
) -> Result<(), Memory> {
    solve_alone(alloc, sources, one)?;
    alike_by(rt, alloc, sources, names, 1, one, out)?;
    alike_by(rt, alloc, sources, names, 2, one, out)?;
    alike_by(rt, alloc, sources, names, 64, one, out)
}

// Solves modules on one thread without a board; `Memory`, too, where they are too many or two have one name.
fn solve_alone(alloc: Global, sources: &[Source], known: &mut Summaries) -> Result<(), Memory> {
    if sources.len() > MOST_FILES {
        return Err(Memory);
    }
    if let Err(_) = check_set(sources) {
        return Err(Memory);
    }
    match solve_modules(alloc, sources, known) {
        Ok(_) => Ok(()),
        Err(Memory) => Err(Memory),
    }
}

fn alike_by<R: Threads + Wait + Sync>(
    rt: &R,
    alloc: Global,
    sources: &[Source],
    names: &str,
    workers: u32,
    one: &Summaries,
    out: &mut Bytes,
) -> Result<(), Memory>
    requires least { 1 ≤ workers }
    requires most { workers ≤ 64 }
{
    let mut known = Summaries::new(alloc);
    let answer = match solve_over(rt, alloc, sources, workers, &mut known) {
        Ok(()) => append_alike(alloc, sources, names, workers, one, &known, out),
        Err(Memory) => Err(Memory),
    };
    drop(known);
    answer
}

fn append_alike(
    alloc: Global,
    sources: &[Source],
    names: &str,
    workers: u32,
    one: &Summaries,
    known: &Summaries,
    out: &mut Bytes,
) -> Result<(), Memory> {
    out.append(b"by ")?;
    out.append_decimal(workers)?;
    let same = sources
        .iter()
        .all(|source| is_same(known, one, source.checked.module()));
    out.append(if same { b": the same" } else { b": another" })?;
    for name in names.lines() {
        append_known(alloc, name, known, out)?;
    }
    out.append(b"\n")
}

// Whether both say the same of each function of a module.
fn is_same(known: &Summaries, other: &Summaries, source: &Module) -> bool {
    for def in source.defs.as_slice() {
        let name = &def.get().name;
        if known.find(&source.name, name) != other.find(&source.name, name) {
            return false;
        }
    }
    true
}

// Appends a name and what is known of it.
fn append_known(
    alloc: Global,
    name: &str,
    known: &Summaries,
    out: &mut Bytes,
) -> Result<(), Memory> {
    let Some((home, function)) = name.split_once(' ') else {
        return out.append(b"; no name");
    };
    out.append(b"; ")?;
    out.append(name.as_bytes())?;
    out.append(word(alloc, known, home, function)?.as_bytes())
}

fn atom(alloc: Global, text: &str) -> Result<Atom, Memory> {
    let bytes = List::from_slice(alloc, text.as_bytes())?;
    Ok(Atom::from_bytes(bytes))
}

// What is known of a function of one parameter.
fn word(
    alloc: Global,
    known: &Summaries,
    home: &str,
    function: &str,
) -> Result<&'static str, Memory> {
    let home = atom(alloc, home)?;
    let name = FunName {
        name: atom(alloc, function)?,
        arity: 1,
    };
    Ok(match known.find(&home, &name) {
        Callee::Known(_) => " is known",
        Callee::Local(_) => " is local",
        Callee::Undefined => " is undefined",
        Callee::Unknown => " is unknown",
    })
}
