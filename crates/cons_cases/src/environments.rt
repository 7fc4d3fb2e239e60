//! Environments as texts: `bottom`, or the types of the slots from 0 on.
use crate::texts::types_of;
use cons_tree::Env;
use std::alloc::Global;
use type_kinds::{Bytes, Memory};
use type_lattice::Ty;
use type_text::{TextFault, print};

/// The environment of a text.
pub fn env_of(alloc: Global, text: &str) -> Result<Env, TextFault> {
    if text == "bottom" {
        return Ok(Env::Bottom);
    }
    let types = types_of(alloc, text)?;
    Ok(Env::Types(types))
}

/// Appends the text of an environment that was made, on a line.
pub fn append_made(made: Result<Env, Memory>, out: &mut Bytes) -> Result<(), Memory> {
    let env = made?;
    let answer = append_env(&env, out);
    drop(env);
    answer
}

fn append_env(env: &Env, out: &mut Bytes) -> Result<(), Memory> {
    match env {
        Env::Bottom => out.append(b"bottom\n"),
        Env::Types(types) => append_types(types.as_slice(), out),
    }
}

fn append_types(types: &[Ty], out: &mut Bytes) -> Result<(), Memory> {
    let mut front: &[u8] = b"";
    for ty in types {
        out.append(front)?;
        print(ty, out)?;
        front = b" ; ";
    }
    out.append(b"\n")
}
