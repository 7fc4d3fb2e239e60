//! The solution of a function's constraint below a type that its parameter begins with.
use crate::solved::sources_of;
use analysis_sources::discard_sources;
use cons_gen::generate;
use cons_gen_rows::Pass;
use cons_solve::solve;
use cons_tree::{Constraint, Env, Summaries};
use core_ast::{FunDef, Module};
use da_shelf::MemShelf;
use std::alloc::Global;
use table_keep::Source;
use type_kinds::{Atom, Bytes, List, Memory};
use type_lattice::Ty;
use type_text::{print, read};

/// Appends, for each function of the module that a file spells, the types of its parameter and its result where the parameter begins
/// with a type. The line has the name of the file, and then the type.
pub fn openings(
    alloc: Global,
    line: &str,
    shelf: &mut MemShelf,
    out: &mut Bytes,
) -> Result<(), Memory> {
    let Some((name, opening)) = line.split_once(' ') else {
        return out.append(b"no type\n");
    };
    match sources_of(alloc, &[name], shelf) {
        Some(sources) => {
            let answer = append_openings(alloc, sources.as_slice(), opening, out);
            discard_sources(sources);
            answer
        }
        None => out.append(b"this file isn't read\n"),
    }
}

fn append_openings(
    alloc: Global,
    sources: &[Source],
    opening: &str,
    out: &mut Bytes,
) -> Result<(), Memory> {
    for source in sources {
        append_opened(alloc, source.checked.module(), opening, out)?;
    }
    Ok(())
}

fn append_opened(
    alloc: Global,
    module: &Module,
    opening: &str,
    out: &mut Bytes,
) -> Result<(), Memory> {
    for def in module.defs.as_slice() {
        append_solution(alloc, def.get(), &module.name, opening, out)?;
    }
    Ok(())
}

fn append_solution(
    alloc: Global,
    def: &FunDef,
    home: &Atom,
    opening: &str,
    out: &mut Bytes,
) -> Result<(), Memory> {
    let known = Summaries::new(alloc);
    let made = generate(alloc, def, home, &known, &Pass::Strict);
    drop(known);
    let made = made?;
    let answer = append_solved(alloc, &made.constraint, made.slots, opening, out);
    drop(made);
    answer
}

fn append_solved(
    alloc: Global,
    constraint: &Constraint,
    slots: u64,
    opening: &str,
    out: &mut Bytes,
) -> Result<(), Memory> {
    let begin = begin(alloc, opening, slots)?;
    match solve(alloc, constraint, begin)? {
        Env::Bottom => out.append(b"bottom\n"),
        Env::Types(types) => append_two(types.as_slice(), out),
    }
}

// The slots of a definition of one parameter, of which the first begins with a type and the others with any.
fn begin(alloc: Global, opening: &str, slots: u64) -> Result<Env, Memory> {
    let mut types = List::new(alloc);
    match read(alloc, opening.as_bytes()) {
        Ok(ty) => types.add(ty)?,
        Err(_) => return Err(Memory),
    }
    for _ in 1..slots {
        types.add(Ty::any())?;
    }
    Ok(Env::Types(types))
}

// The types of the first two slots, which are those of the parameter and the result, a line each.
fn append_two(types: &[Ty], out: &mut Bytes) -> Result<(), Memory> {
    for ty in types.iter().take(2) {
        print(ty, out)?;
        out.append(b"\n")?;
    }
    Ok(())
}
