//! Sets of modules, and the calls between their functions and out of them.
ghost use Rattle.std.specs.Prelude.{◌≤◌, length};

use crate::graphs::append_components;
use analysis_sources::{discard_sources, sources_of};
use call_graph::{OutsideCall, all_calls, graph};
use core_scope::{SetFault, check_set};
use std::alloc::Global;
use table_keep::Source;
use type_kinds::{Bytes, List, Memory};

// No more modules are in a set.
const MOST_MODULES: usize = 1000;

/// Appends what a step gives of the modules that these texts spell: `set` whether they have distinct names, or else the first two of one
/// name; `calls` the components of their functions; and any other the outside calls of each function, a line for each.
pub fn append_over(
    alloc: Global,
    what: &str,
    texts: &[Bytes],
    out: &mut Bytes,
) -> Result<(), Memory> {
    if texts.len() > MOST_MODULES {
        return Err(Memory);
    }
    match sources_of(alloc, texts) {
        Ok(sources) => {
            let answer = append_what(alloc, what, sources.as_slice(), out);
            discard_sources(sources);
            answer
        }
        Err(_) => out.append(b"no modules that are accepted\n"),
    }
}

fn append_what(alloc: Global, what: &str, mods: &[Source], out: &mut Bytes) -> Result<(), Memory> {
    if mods.len() > MOST_MODULES {
        return Err(Memory);
    }
    match what {
        "set" => append_names(mods, out),
        "calls" => append_calls(alloc, mods, out),
        _ => append_outside(alloc, mods, out),
    }
}

fn append_names(mods: &[Source], out: &mut Bytes) -> Result<(), Memory>
    requires { length mods.now ≤ 1000 }
{
    match check_set(mods) {
        Ok(()) => out.append(b"distinct names\n"),
        Err(fault) => append_duplicate(fault, out),
    }
}

fn append_calls(alloc: Global, mods: &[Source], out: &mut Bytes) -> Result<(), Memory>
    requires { length mods.now ≤ 1000 }
{
    match check_set(mods) {
        Ok(()) => {
            let graph = graph(alloc, mods)?;
            let answer = append_components(alloc, &graph, out);
            drop(graph);
            answer
        }
        Err(fault) => append_duplicate(fault, out),
    }
}

fn append_outside(alloc: Global, mods: &[Source], out: &mut Bytes) -> Result<(), Memory>
    requires { length mods.now ≤ 1000 }
{
    match check_set(mods) {
        Ok(()) => {
            let calls = all_calls(alloc, mods)?;
            let answer = append_lists(calls.outside.as_slice(), out);
            drop(calls);
            answer
        }
        Err(fault) => append_duplicate(fault, out),
    }
}

fn append_duplicate(fault: SetFault, out: &mut Bytes) -> Result<(), Memory> {
    let SetFault::DuplicateModule { first, second } = fault;
    out.append(b"one name: ")?;
    out.append_decimal(first)?;
    out.append(b" and ")?;
    out.append_decimal(second)?;
    out.append(b"\n")
}

fn append_lists(outside: &[List<OutsideCall>], out: &mut Bytes) -> Result<(), Memory> {
    for calls in outside {
        append_outside_calls(calls.as_slice(), out)?;
    }
    Ok(())
}

fn append_outside_calls(calls: &[OutsideCall], out: &mut Bytes) -> Result<(), Memory> {
    out.append(b"calls")?;
    for (home, name) in calls {
        out.append(b" ")?;
        home.text(out)?;
        out.append(b":")?;
        name.name.text(out)?;
        out.append(b"/")?;
        out.append_decimal(name.arity)?;
    }
    out.append(b"\n")
}
