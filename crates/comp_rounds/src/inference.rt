//! The signature of one function, by what a pass knows of those that it calls.
ghost use Rattle.std.specs.Prelude.{◌≡◌, IfOk, IfSome, IsTrue, Some, replicate, take};
ghost use Rattle.type_lattice.specs.Types.{any};
ghost use Rattle.cons_tree.specs.Constraints.{constraint};
ghost use Rattle.cons_solve.specs.Environments.{solution};
ghost use Rattle.cons_gen_rows.specs.Knowing.{knowledge};
ghost use Rattle.comp_rounds.specs.Members.{function_of};
ghost use Rattle.comp_rounds.specs.Rounds.{inferred, signature_in};

use crate::constraints::same_constraint;
use crate::members::Member;
use crate::signatures::{no_value, signature_of};
use cons_gen::{Made, generate};
use cons_gen_rows::Pass;
use cons_solve::solve_slots;
use cons_tree::{Sig, Slots, Summaries, discard_slots, own_types};
use std::alloc::Global;
use type_kinds::{List, Memory};
use type_lattice::Ty;

// Drops a constraint.
fn discard_made(_made: Made) {}

// The types of the first `count` slots.
fn first_types(alloc: Global, slots: &Slots, count: usize) -> Result<List<Ty>, Memory>
    ensures { IfOk result (λ types. types ≡ take count slots.now.types) }
{
    let all = slots.types.as_slice();
    if count >= all.len() {
        let types = own_types(alloc, all)?;
        return Ok(types);
    }
    let first = own_types(alloc, &all[..count])?;
    Ok(first)
}

// The signature of `count` arguments in the types of a solution: they have the first slots, the result the next one.
fn signature_of_slots(alloc: Global, slots: &Slots, count: usize) -> Result<Sig, Memory>
    ensures { IfOk result (λ sig. sig ≡ signature_in count (Some slots.now.types)) }
{
    let returned = slots.at(count as u64).copy()?;
    let args = first_types(alloc, slots, count)?;
    Ok(signature_of(args, returned))
}

// The signature of `count` arguments in the greatest solution below the array, which is left of it.
fn settled_signature(
    alloc: Global,
    made: &Made,
    count: usize,
    slots: &mut Slots,
) -> Result<Sig, Memory>
    ensures { IfOk result (λ sig. sig ≡ signature_in count (solution (constraint made.now.constraint) slots.old.types)) }
{
    let mut visits = 0;
    let alive = solve_slots(alloc, &made.constraint, slots, &mut visits)?;
    if !alive {
        let without = no_value(alloc, count)?;
        return Ok(without);
    }
    let sig = signature_of_slots(alloc, slots, count)?;
    Ok(sig)
}

// The signature of `count` arguments in the greatest solution of what was made, where every slot may have any value at first.
fn signature_once(alloc: Global, made: &Made, count: usize) -> Result<Sig, Memory>
    ensures { IfOk result (λ sig. sig ≡ signature_in count (solution (constraint made.now.constraint) (replicate made.now.slots any))) }
{
    let mut slots = Slots::anys(alloc, made.slots)?;
    let sig = settled_signature(alloc, made, count, &mut slots);
    discard_slots(slots);
    sig
}

/// What was solved last: what was made of a function with so many parameters, and the signature in its greatest solution.
#[derive(Drop)]
pub struct Last {
    made: Made,
    count: usize,
    sig: Sig,
    ghost is: { sig ≡ signature_in count (solution (constraint made.constraint) (replicate made.slots any)) },
}

/// Drops what was solved.
pub fn discard_last(_last: Option<Last>) {}

// Whether this is what was solved.
fn is_made(last: &Last, made: &Made, count: usize) -> bool
    ensures { IsTrue result → (last.now.made.constraint ≡ made.now.constraint) × (last.now.made.slots ≡ made.now.slots) × (last.now.count ≡ count) }
{
    last.made.slots == made.slots
        && last.count == count
        && same_constraint(&last.made.constraint, &made.constraint)
}

// The signature that was found last, if this was solved then.
fn last_signature(
    alloc: Global,
    last: &Option<Last>,
    made: &Made,
    count: usize,
) -> Result<Option<Sig>, Memory>
    ensures { IfOk result (λ found. IfSome found (λ sig. sig
        ≡ signature_in count (solution (constraint made.now.constraint) (replicate made.now.slots any)))) }
{
    let Some(last) = last else {
        return Ok(None);
    };
    if !is_made(last, made, count) {
        return Ok(None);
    }
    let sig = last.sig.copy(alloc)?;
    Ok(Some(sig))
}

// The signature of `count` arguments in the greatest solution of what was made, twice.
fn solved_signature(alloc: Global, made: &Made, count: usize) -> Result<(Sig, Sig), Memory>
    ensures { let sig = signature_in count (solution (constraint made.now.constraint) (replicate made.now.slots any)) in IfOk result (λ both. (both.0 ≡ sig)
        × (both.1 ≡ sig)) }
{
    let sig = signature_once(alloc, made, count)?;
    let copy = sig.copy(alloc)?;
    Ok((sig, copy))
}

// This is what was solved last.
fn keep(made: Made, count: usize, sig: Sig, last: &mut Option<Last>)
    requires { sig ≡ signature_in count (solution (constraint made.constraint) (replicate made.slots any)) }
{
    let kept = Last { made, count, sig };
    discard_last(std::mem::replace(last, Some(kept)));
}

// The signature in the greatest solution of what was made, which is what was solved last from now on.
fn keep_signature(
    alloc: Global,
    made: Made,
    count: usize,
    last: &mut Option<Last>,
) -> Result<Sig, Memory>
    ensures { IfOk result (λ sig. sig ≡ signature_in count (solution (constraint made.constraint) (replicate made.slots any))) }
{
    match solved_signature(alloc, &made, count) {
        Ok((sig, copy)) => {
            keep(made, count, copy, last);
            Ok(sig)
        }
        Err(Memory) => {
            discard_made(made);
            Err(Memory)
        }
    }
}

/// The signature of a member by a pass: its parameters and its result in the greatest solution of its constraint,
/// where every slot may have any value at first. Where its constraint is the one that was solved last, the answer is that
/// of then, and nothing is solved. `Memory` if allocation fails.
pub fn infer(
    alloc: Global,
    member: &Member,
    known: &Summaries,
    pass: &Pass,
    last: &mut Option<Last>,
) -> Result<Sig, Memory>
    ensures { IfOk result (λ sig. sig ≡ inferred (knowledge pass.now known.now) (function_of member.now)) }
{
    let def = member.def.get();
    let count = def.fun.params.len();
    let made = generate(alloc, def, &member.home, known, pass)?;
    match last_signature(alloc, last, &made, count) {
        Ok(None) => keep_signature(alloc, made, count, last),
        Ok(Some(sig)) => {
            discard_made(made);
            Ok(sig)
        }
        Err(Memory) => {
            discard_made(made);
            Err(Memory)
        }
    }
}
