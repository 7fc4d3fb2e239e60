//! What is known of functions without arguments, which are set, found again, and closed with their module. A line has
//!
//! - `set MODULE FUNCTION CALLEE`, the callee `known`, `local`, `undefined` or `unknown`;
//! - `close MODULE`;
//! - `find MODULE FUNCTION`, which gives the callee, or `find-copied MODULE FUNCTION`, which finds it in a copy.
ghost use Rattle.std.specs.Prelude.{◌≡◌, IfOk};
ghost use Rattle.cons_tree.specs.Callees.{Takes, Fits};

use crate::texts::{atom, parted};
use cons_tree::{Callee, Sig, Summaries, Summary};
use core_ast::FunName;
use std::alloc::Global;
use type_kinds::{Atom, Bytes, List, Memory, Shared};
use type_lattice::Ty;

/// Does what the lines say, from nothing known on, and appends what is found.
pub fn append_callees(alloc: Global, lines: &str, out: &mut Bytes) -> Result<(), Memory> {
    let mut known = Summaries::new(alloc);
    let answer = do_lines(alloc, lines, &mut known, out);
    drop(known);
    answer
}

fn do_lines(
    alloc: Global,
    lines: &str,
    known: &mut Summaries,
    out: &mut Bytes,
) -> Result<(), Memory> {
    for line in lines.lines() {
        do_line(alloc, line, known, out)?;
    }
    Ok(())
}

fn do_line(
    alloc: Global,
    line: &str,
    known: &mut Summaries,
    out: &mut Bytes,
) -> Result<(), Memory> {
    let (what, rest) = parted(line, " ");
    let (home, rest) = parted(rest, " ");
    let home = atom(alloc, home)?;
    let answer = match what {
        "set" => set(alloc, &home, rest, known),
        "close" => known.close(&home),
        "find" => append_found(alloc, &home, rest, known, out),
        _ => append_copied(alloc, &home, rest, known, out),
    };
    drop(home);
    answer
}

// Sets the callee of the second word under the name of the first.
fn set(alloc: Global, home: &Atom, rest: &str, known: &mut Summaries) -> Result<(), Memory> {
    let (name, callee) = parted(rest, " ");
    let name = function(alloc, name)?;
    let answer = match callee_of(alloc, callee) {
        Ok(callee) => known.set(home, &name, callee),
        Err(Memory) => Err(Memory),
    };
    drop(name);
    answer
}

// The name of a function without arguments.
fn function(alloc: Global, name: &str) -> Result<FunName, Memory>
    ensures { IfOk result (λ f. f.arity ≡ 0) }
{
    let name = atom(alloc, name)?;
    Ok(FunName { name, arity: 0 })
}

fn callee_of(alloc: Global, text: &str) -> Result<Callee, Memory>
    ensures { IfOk result (λ callee. Fits callee 0) }
{
    match text {
        "known" => Ok(Callee::Known(summary(alloc)?)),
        "local" => Ok(Callee::Local(summary(alloc)?)),
        "undefined" => Ok(Callee::Undefined),
        _ => Ok(Callee::Unknown),
    }
}

// A summary of a function without arguments.
fn summary(alloc: Global) -> Result<Summary, Memory>
    ensures { IfOk result (λ summary. Takes summary 0) }
{
    let signature = Sig::new(List::new(alloc), Ty::any());
    let strict = Shared::new(alloc, signature)?;
    let lenient = strict.share()?;
    Ok(Summary { strict, lenient })
}

fn append_found(
    alloc: Global,
    home: &Atom,
    name: &str,
    known: &Summaries,
    out: &mut Bytes,
) -> Result<(), Memory> {
    let name = function(alloc, name)?;
    let found = named(known.find(home, &name));
    drop(name);
    out.append(found)
}

fn named(callee: &Callee) -> &'static [u8] {
    match callee {
        Callee::Known(_) => b"known\n",
        Callee::Local(_) => b"local\n",
        Callee::Undefined => b"undefined\n",
        Callee::Unknown => b"unknown\n",
    }
}

fn append_copied(
    alloc: Global,
    home: &Atom,
    name: &str,
    known: &Summaries,
    out: &mut Bytes,
) -> Result<(), Memory> {
    let copy = known.copy(alloc)?;
    let answer = append_found(alloc, home, name, &copy, out);
    drop(copy);
    answer
}
