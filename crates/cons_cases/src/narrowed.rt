//! Environments that a part narrows.
use crate::environments::{append_made, env_of};
use crate::parts::part_of;
use crate::texts::{append_fault, parted};
use cons_tree::{Part, narrow};
use std::alloc::Global;
use type_kinds::{Bytes, Memory};

/// Appends what the part of the first line makes of the environment of each further one.
pub fn append_narrowed(alloc: Global, lines: &str, out: &mut Bytes) -> Result<(), Memory> {
    let (part, envs) = parted(lines, "\n");
    match part_of(alloc, part) {
        Ok(part) => {
            let answer = append_each(alloc, &part, envs, out);
            drop(part);
            answer
        }
        Err(fault) => append_fault(fault, out),
    }
}

fn append_each(alloc: Global, part: &Part, envs: &str, out: &mut Bytes) -> Result<(), Memory> {
    for text in envs.lines() {
        append_one(alloc, part, text, out)?;
    }
    Ok(())
}

fn append_one(alloc: Global, part: &Part, text: &str, out: &mut Bytes) -> Result<(), Memory> {
    match env_of(alloc, text) {
        Ok(env) => {
            let after = narrow(alloc, part, &env);
            drop(env);
            append_made(after, out)
        }
        Err(fault) => append_fault(fault, out),
    }
}
