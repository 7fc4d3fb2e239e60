//! What is known once functions have signatures or summaries.
ghost use Rattle.std.specs.Prelude.{◌≡◌, ◌↔◌, ℕ, IfOk, OnOk, Some, length, map, slice_get, false, true};
ghost use Rattle.call_graph.specs.Among.{IsLast};
ghost use Rattle.cons_tree.specs.Callees.{Takes, found};
ghost use Rattle.comp_rounds.specs.Calls.{called_as};
ghost use Rattle.comp_rounds.specs.Members.{function_of};
ghost use Rattle.comp_rounds.specs.Rounds.{Function, arity, callee_of, of_one, with_function, with_signatures, with_summaries};
ghost use Rattle.comp_rounds.specs.Takes.{AllTake};
ghost use Rattle.comp_rounds.specs.Turns.{AllWithin, AreEntered};

use crate::members::Member;
use cons_tree::{Callee, Sig, Summaries, Summary};
use std::alloc::Global;
use type_kinds::{List, Memory, Shared};

// What a member is to others with its summary.
fn callee(member: &Member, summary: Summary) -> Callee
    ensures { result ≡ callee_of (function_of member.now) summary }
{
    if member.exported {
        Callee::Known(summary)
    } else {
        Callee::Local(summary)
    }
}

// A member with its summary is known from now on, under its name. If allocation fails all is as before.
fn enter(known: &mut Summaries, member: &Member, summary: Summary) -> Result<(), Memory>
    requires { Takes summary (arity (function_of member.now)) }
    ensures { OnOk result (found known.new ≡ with_function (found known.old) (function_of member.now) summary) }
{
    let name = &member.def.get().name;
    known.set(&member.home, name, callee(member, summary))
}

// A summary of this signature alone. `Memory` if allocation fails.
fn of_one(alloc: Global, sig: &Sig) -> Result<Summary, Memory>
    ensures { IfOk result (λ summary. summary ≡ of_one sig.now) }
{
    let strict = Shared::new(alloc, sig.copy(alloc)?)?;
    let lenient = strict.share()?;
    Ok(Summary { strict, lenient })
}

/// Members with their signatures are known from now on, strictly and leniently. If allocation fails `known` may hold
/// anything.
pub fn enter_signatures(
    alloc: Global,
    known: &mut Summaries,
    members: &[Member],
    signatures: &[Sig],
) -> Result<(), Memory>
    requires { AllTake (map function_of members.now) (map of_one signatures.now) }
    ensures { OnOk result (found known.new ≡ with_signatures (found known.old) (map function_of members.now) signatures.now) }
{
    let count = members.len().min(signatures.len());
    for at in 0..count {
        let summary = of_one(alloc, &signatures[at])?;
        enter(known, &members[at], summary)?;
    }
    Ok(())
}

/// Members with their summaries are known from now on. If allocation fails `known` may hold anything.
pub fn enter_summaries(
    alloc: Global,
    known: &mut Summaries,
    members: &[Member],
    summaries: &[Summary],
) -> Result<(), Memory>
    requires { AllTake (map function_of members.now) summaries.now }
    ensures { OnOk result (found known.new ≡ with_summaries (found known.old) (map function_of members.now) summaries.now) }
{
    let count = members.len().min(summaries.len());
    for at in 0..count {
        let summary = summaries[at].copy(alloc)?;
        enter(known, &members[at], summary)?;
    }
    Ok(())
}

// A member with its signature is known from now on, if it is the last one of its name. If allocation fails `known` may hold
// anything.
fn enter_last(
    alloc: Global,
    known: &mut Summaries,
    member: &Member,
    sig: &Sig,
    is_last: bool,
) -> Result<(), Memory>
    requires { Takes (of_one sig.now) (arity (function_of member.now)) }
    ensures entered { OnOk result (is_last ≡ true → found known.new ≡ with_function (found known.old) (function_of member.now) (of_one sig.now)) }
    ensures passed { OnOk result (is_last ≡ false → found known.new ≡ found known.old) }
{
    if !is_last {
        return Ok(());
    }
    let summary = of_one(alloc, sig)?;
    enter(known, member, summary)
}

/// The changed ones of these members, of which the last one of a name counts, are known with their signatures from now on.
/// If allocation fails `known` may hold anything.
pub fn enter_changed(
    alloc: Global,
    known: &mut Summaries,
    members: &[Member],
    signatures: &[Sig],
    last: &List<bool>,
    changed: &[u32],
) -> Result<(), Memory>
    requires take { AllTake (map function_of members.now) (map of_one signatures.now) }
    requires last { length last.now ≡ length members.now }
    requires lasts { let gs = map function_of members.now in (j : ℕ) (g : Function) → slice_get gs j ≡ Some g
        → (slice_get last.now j ≡ Some true) ↔ IsLast (map called_as gs) j g.home g.name }
    requires within { AllWithin changed.now (length members.now) }
    requires known { AreEntered (map function_of members.now) signatures.now (found known.old) changed.now }
    ensures { OnOk result (found known.new ≡ with_signatures (found known.old) (map function_of members.now) signatures.now) }
{
    for number in changed {
        let place = *number as usize;
        let is_last = *last.at(place);
        enter_last(alloc, known, &members[place], &signatures[place], is_last)?;
    }
    Ok(())
}
