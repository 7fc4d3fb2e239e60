//! Constraints that are solved.
ghost use Rattle.std.specs.Prelude.{◌≡◌};

use crate::constraints::constraint_of;
use crate::environments::{append_made, env_of};
use crate::texts::{append_fault, number, parted};
use cons_solve::{Steps, solve, solve_counted, solve_noted};
use cons_tree::{Constraint, Env};
use std::alloc::Global;
use std::marker::Brand;
use std::sync::ledger::{Blank, Ledger};
use type_kinds::{Bytes, List, Memory};
use type_lattice::Ty;
use type_text::{TextFault, read};

/// Appends the greatest solution of all constraints of some lines below the environment of each line behind a line `below`.
pub fn append_solved(alloc: Global, lines: &str, out: &mut Bytes) -> Result<(), Memory> {
    let (made, envs) = match lines.split_once("below\n") {
        Some(parts) => parts,
        None => (lines, ""),
    };
    match constraint_of(alloc, made) {
        Ok(c) => {
            let answer = append_each(alloc, &c, envs, out);
            drop(c);
            answer
        }
        Err(fault) => append_fault(fault, out),
    }
}

fn append_each(alloc: Global, c: &Constraint, envs: &str, out: &mut Bytes) -> Result<(), Memory> {
    for text in envs.lines() {
        append_one(alloc, c, text, out)?;
    }
    Ok(())
}

// A line that begins with `counted ` is solved with a count of turns.
fn append_one(alloc: Global, c: &Constraint, line: &str, out: &mut Bytes) -> Result<(), Memory> {
    let (text, is_counted) = match line.split_once("counted ") {
        Some((_, text)) => (text, true),
        None => (line, false),
    };
    match env_of(alloc, text) {
        Ok(env) => append_made(solved(alloc, c, env, is_counted), out),
        Err(fault) => append_fault(fault, out),
    }
}

fn solved(alloc: Global, c: &Constraint, env: Env, is_counted: bool) -> Result<Env, Memory> {
    if is_counted {
        counted::<Brand>(alloc, Blank::new(1), c, env)
    } else {
        solve(alloc, c, env)
    }
}

// Solves with a count of turns under the ledger of the blank.
fn counted<L: Ledger>(
    alloc: Global,
    blank: Blank,
    c: &Constraint,
    begin: Env,
) -> Result<Env, Memory>
    requires name { blank.name ≡ L.name }
    requires parts { blank.parts ≡ L.parts }
    requires one { blank.parts ≡ 1 }
{
    let mut steps = Steps::<L>::new(blank);
    solve_counted(alloc, c, begin, &mut steps)
}

/// Appends of how many slots the type of a text is the solution, where a number of slots may have any value, and whether as many parts are
/// narrowed meanwhile as two numbers allow, from the one to below the other. The three numbers stand before the text.
pub fn append_visits(
    alloc: Global,
    rest: &str,
    lines: &str,
    out: &mut Bytes,
) -> Result<(), Memory> {
    match constraint_of(alloc, lines) {
        Ok(c) => {
            let answer = append_visits_of(alloc, &c, rest, out);
            drop(c);
            answer
        }
        Err(fault) => append_fault(fault, out),
    }
}

fn append_visits_of(
    alloc: Global,
    c: &Constraint,
    rest: &str,
    out: &mut Bytes,
) -> Result<(), Memory> {
    let (slots, rest) = parted(rest, " ");
    let (least, rest) = parted(rest, " ");
    let (most, text) = parted(rest, " ");
    let mut visits = 0;
    let solution = solve_free(alloc, c, number(slots), &mut visits)?;
    let count = count_of_text(alloc, &solution, text);
    drop(solution);
    let is_within = number(least) <= visits && visits < number(most);
    match count {
        Ok(count) => append_count(count, is_within, out),
        Err(fault) => append_fault(fault, out),
    }
}

fn append_count(count: usize, is_within: bool, out: &mut Bytes) -> Result<(), Memory> {
    out.append_decimal(count)?;
    out.append(if is_within {
        b" slots, few parts\n"
    } else {
        b" slots, too few parts or too many\n"
    })
}

// Solves for so many slots that may have any value.
fn solve_free(alloc: Global, c: &Constraint, slots: u64, visits: &mut u64) -> Result<Env, Memory> {
    let begin = free_slots(alloc, slots)?;
    solve_noted(alloc, c, begin, visits)
}

fn free_slots(alloc: Global, count: u64) -> Result<Env, Memory> {
    let mut types = List::new(alloc);
    for _ in 0..count {
        types.add(Ty::any())?;
    }
    Ok(Env::Types(types))
}

fn count_of_text(alloc: Global, env: &Env, text: &str) -> Result<usize, TextFault> {
    let ty = read(alloc, text.as_bytes())?;
    let count = count_of(env, &ty);
    drop(ty);
    Ok(count)
}

// How many of the types are this one.
fn count_of(env: &Env, ty: &Ty) -> usize {
    match env {
        Env::Bottom => 0,
        Env::Types(types) => types.as_slice().iter().filter(|one| *one == ty).count(),
    }
}
