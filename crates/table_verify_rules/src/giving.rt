//! Whether a function gives no more than its summary says.
ghost use Rattle.std.specs.Prelude.{◌≡◌, ◌↔◌, ◌≤◌, IfOk, IsTrue, Some, length, replicate};
ghost use Rattle.type_lattice.specs.Types.{any};
ghost use Rattle.cons_tree.specs.Callees.{found};
ghost use Rattle.cons_tree.specs.Constraints.{constraint};
ghost use Rattle.cons_gen_rows.specs.Knowing.{knowledge};
ghost use Rattle.cons_solve.specs.Environments.{solution};
ghost use Rattle.comp_rounds.specs.Members.{function_of};
ghost use Rattle.sound_laws.specs.Summaries.{IsWithin};
ghost use Rattle.table_verify_laws.specs.Closed.{GivesBelow};

use comp_rounds::Member;
use cons_gen::{Made, generate};
use cons_gen_rows::Pass;
use cons_tree::{Sig, Slots, Summaries, discard_slots};
use std::alloc::Global;
use table_verify_sweeps::settle;
use type_kinds::{List, Memory};
use type_lattice::Ty;

// Drops what was made.
fn discard_made(_made: Made) {}

/// Whether what the member's constraint gives by this pass lies below the signature: its parameters and its result in the greatest solution,
/// where every slot may have any value at first. `Memory`: allocation failed, or as of `generate`.
pub fn gives_below(
    alloc: Global,
    member: &Member,
    known: &Summaries,
    pass: &Pass,
    sig: &Sig,
) -> Result<bool, Memory>
    requires { length sig.now.args ≡ length member.now.def.fun.params }
    ensures { IfOk result (λ b. IsTrue b ↔ GivesBelow (knowledge pass.now known.now) (function_of member.now) sig.now) }
{
    let def = member.def.get();
    let made = generate(alloc, def, &member.home, known, pass)?;
    let answer = solves_below(alloc, &made, sig);
    discard_made(made);
    answer
}

// The same of what was made.
fn solves_below(alloc: Global, made: &Made, sig: &Sig) -> Result<bool, Memory>
    requires { length sig.now.args ≤ made.now.slots }
    ensures { IfOk result (λ b. IsTrue b ↔ IsWithin (length sig.now.args)
        (solution (constraint made.now.constraint) (replicate made.now.slots any)) sig.now) }
{
    let mut slots = Slots::anys(alloc, made.slots)?;
    let alive = settle(alloc, &made.constraint, &mut slots)?;
    if !alive {
        discard_slots(slots);
        return Ok(true);
    }
    let within = is_within(&slots, sig);
    discard_slots(slots);
    Ok(within)
}

// Whether the first slots lie below the arguments of the signature, and the next one below its result.
fn is_within(slots: &Slots, sig: &Sig) -> bool
    requires { length sig.now.args ≤ length slots.now.types }
    ensures { IsTrue result ↔ IsWithin (length sig.now.args) (Some slots.now.types) sig.now }
{
    let count = sig.args.len();
    for at in 0..count {
        let below = slots.at(at as u64).leq(sig.args.at(at));
        if !below {
            return false;
        }
    }
    slots.at(count as u64).leq(&sig.result)
}
