//! The rounds of a component, and its summaries.
ghost use Rattle.std.specs.Prelude.{◌≡◌, ◌<◌, ◌⊎◌, ℕ, Contains, IfOk, OnOk, Some, false, length, map, slice_get, slice_set, true};
ghost use Rattle.cons_tree.specs.Callees.{found};
ghost use Rattle.cons_tree.specs.declared.parts.Sig.{Sig};
ghost use Rattle.cons_gen_rows.specs.Knowing.{knowledge};
ghost use Rattle.cons_gen_rows.specs.Members.{is_member as in_members};
ghost use Rattle.comp_rounds.specs.Members.{function_of};
ghost use Rattle.comp_rounds.specs.Rounds.{after_rounds, all_next, arity, inferred, is_member, lenient_pass, next_signature, of_one};
ghost use Rattle.comp_rounds.specs.Rounds.{paired, strict_pass, strict_signatures, summaries, with_signatures, with_summaries};
ghost use Rattle.comp_rounds.specs.Calls.{AreCalls};
ghost use Rattle.comp_rounds.specs.Signatures.{nothing};
ghost use Rattle.comp_rounds.specs.Takes.{AllTake};
ghost use Rattle.comp_rounds.specs.Turns.{AllWithin, AreSettled, AreTurned, DifferAt};

use crate::calls::{all_numbers, callers_of, calls_of};
use crate::entering::{enter_changed, enter_signatures, enter_summaries};
use crate::inference::{Last, discard_last, infer};
use crate::members::Member;
use crate::signatures::{any_value, below, join, no_value};
use call_graph::{CallsAmong, discard_calls};
use cons_gen_rows::{Members, Pass};
use cons_solve::solution_laws;
use cons_tree::{Sig, Summaries, Summary, type_facts};
use std::alloc::Global;
use type_kinds::{List, Memory, Shared};

// How many rounds join what they give to what was there.
const JOINED_ROUNDS: usize = 12;

// Each member's signature before the first round.
fn first_signatures(alloc: Global, members: &[Member]) -> Result<List<Sig>, Memory>
    ensures { IfOk result (λ sigs. sigs ≡ map (λ g. nothing (arity g)) (map function_of members.now)) }
{
    let mut signatures = List::new(alloc);
    for member in members {
        let sig = no_value(alloc, member.def.get().fun.params.len())?;
        signatures.add(sig)?;
    }
    Ok(signatures)
}

// The signature of each member by a pass.
fn infer_all(
    alloc: Global,
    members: &[Member],
    known: &Summaries,
    pass: &Pass,
    last: &mut Option<Last>,
) -> Result<List<Sig>, Memory>
    ensures { IfOk result (λ sigs. sigs ≡ map (inferred (knowledge pass.now known.now)) (map function_of members.now)) }
{
    let mut signatures = List::new(alloc);
    for member in members {
        let sig = infer(alloc, member, known, pass, last)?;
        signatures.add(sig)?;
    }
    Ok(signatures)
}

// A member's signature after the round of this number.
#[tactic(auto, using(crate::proofs::Nexts::next_joined, crate::proofs::Nexts::next_kept, crate::proofs::Nexts::next_widened))]
fn next(alloc: Global, round: usize, old: &Sig, given: &Sig) -> Result<Sig, Memory>
    ensures { IfOk result (λ sig. sig ≡ next_signature round old.now given.now) }
{
    if round < JOINED_ROUNDS {
        return Ok(join(alloc, old, given)?);
    }
    if below(given, old) {
        return Ok(old.copy(alloc)?);
    }
    Ok(any_value(alloc, old.args.len())?)
}

// Drops a signature.
fn discard_signature(_sig: Sig) {}

// The member at this place has its next signature; the answer is whether that is another.
fn turn(
    alloc: Global,
    member: &Member,
    known: &Summaries,
    round: usize,
    signatures: &mut List<Sig>,
    at: usize,
    last: &mut Option<Last>,
) -> Result<bool, Memory>
    requires { at < length signatures.old }
    ensures next { OnOk result ((s : Sig) → slice_get signatures.old at ≡ Some s
        → signatures.new ≡ slice_set signatures.old at (next_signature round s (inferred (strict_pass (found known.now)) (function_of member.now)))) }
    ensures same { IfOk result (λ turned. turned ≡ false → signatures.new ≡ signatures.old) }
{
    type_facts();
    let given = infer(alloc, member, known, &Pass::Strict, last)?;
    let old = signatures.at(at);
    if below(&given, old) {
        return Ok(false);
    }
    let sig = next(alloc, round, old, &given)?;
    discard_signature(signatures.replace(at, sig));
    Ok(true)
}

// Adds a number, if it is asked for.
fn note_if(numbers: &mut List<u32>, number: u32, wanted: bool) -> Result<(), Memory>
    ensures kept { OnOk result ((i : ℕ) → Contains numbers.old i → Contains numbers.new i) }
    ensures added { OnOk result (wanted ≡ true → Contains numbers.new number) }
    ensures only { OnOk result ((i : ℕ) → Contains numbers.new i → Contains numbers.old i ⊎ (i ≡ number)) }
{
    if wanted {
        return numbers.add(number);
    }
    Ok(())
}

// One round, which infers the members at places that are due: all signatures are what they are after it. The answer is
// the places at which they changed.
fn one_round(
    alloc: Global,
    members: &[Member],
    known: &Summaries,
    round: usize,
    signatures: &mut List<Sig>,
    due: &[u32],
    last: &mut Option<Last>,
) -> Result<List<u32>, Memory>
    requires takes { AllTake (map function_of members.now) (map of_one signatures.old) }
    requires within { AllWithin due.now (length members.now) }
    ensures turned { OnOk result (AreTurned (strict_pass (found known.now)) round (map function_of members.now) signatures.old signatures.new due.now) }
    ensures changed { IfOk result (λ changed. DifferAt changed signatures.old signatures.new) }
    ensures within { IfOk result (λ changed. AllWithin changed (length members.now)) }
{
    type_facts();
    solution_laws();
    let mut changed = List::new(alloc);
    for number in due {
        let at = *number as usize;
        let turned = turn(alloc, &members[at], known, round, signatures, at, last)?;
        note_if(&mut changed, *number, turned)?;
    }
    Ok(changed)
}

// One round, by which the members are known afterwards. The answer is the places of those that are due in the next one.
fn next_round(
    alloc: Global,
    members: &[Member],
    known: &mut Summaries,
    calls: &CallsAmong,
    round: usize,
    signatures: &mut List<Sig>,
    due: &[u32],
    last: &mut Option<Last>,
) -> Result<List<u32>, Memory>
    requires calls { AreCalls (map function_of members.now) calls.now }
    requires takes { AllTake (map function_of members.now) (map of_one signatures.old) }
    requires known { found known.old ≡ with_signatures (found known.old) (map function_of members.now) signatures.old }
    requires settled { AreSettled (found known.old) (map function_of members.now) signatures.old due.now }
    requires within { AllWithin due.now (length members.now) }
    ensures next { OnOk result (signatures.new ≡ all_next round signatures.old
        (map (inferred (strict_pass (found known.old))) (map function_of members.now))) }
    ensures known { OnOk result (found known.new ≡ with_signatures (found known.old) (map function_of members.now) signatures.new) }
    ensures settled { IfOk result (AreSettled (found known.new) (map function_of members.now) signatures.new) }
    ensures within { IfOk result (λ due. AllWithin due (length members.now)) }
{
    type_facts();
    solution_laws();
    let changed = one_round(alloc, members, known, round, signatures, due, last)?;
    enter_changed(
        alloc,
        known,
        members,
        signatures.as_slice(),
        &calls.last,
        changed.as_slice(),
    )?;
    let next = callers_of(alloc, &calls.callers, changed.as_slice())?;
    Ok(next)
}

// The signatures are the strict ones, with which the members are known from now on.
fn settle(
    alloc: Global,
    members: &[Member],
    known: &mut Summaries,
    calls: &CallsAmong,
    signatures: &mut List<Sig>,
    last: &mut Option<Last>,
) -> Result<(), Memory>
    requires calls { AreCalls (map function_of members.now) calls.now }
    requires first { signatures.old ≡ after_rounds (found known.old) (map function_of members.now) 0 }
    ensures value { OnOk result (signatures.new ≡ strict_signatures (found known.old) (map function_of members.now)) }
    ensures known { OnOk result (found known.new ≡ with_signatures (found known.old) (map function_of members.now) signatures.new) }
{
    type_facts();
    solution_laws();
    enter_signatures(alloc, known, members, signatures.as_slice())?;
    let mut due = all_numbers(alloc, members.len() as u32)?;
    for round in 0..JOINED_ROUNDS + members.len() {
        if due.is_empty() {
            return Ok(());
        }
        due = next_round(
            alloc,
            members,
            known,
            calls,
            round,
            signatures,
            due.as_slice(),
            last,
        )?;
    }
    Ok(())
}

// The strict signatures of the members, with which they are known from now on.
fn strict(
    alloc: Global,
    members: &[Member],
    known: &mut Summaries,
    last: &mut Option<Last>,
) -> Result<List<Sig>, Memory>
    ensures value { IfOk result (λ sigs. sigs ≡ strict_signatures (found known.old) (map function_of members.now)) }
    ensures known { IfOk result (λ sigs. found known.new ≡ with_signatures (found known.old) (map function_of members.now) sigs) }
{
    let mut signatures = first_signatures(alloc, members)?;
    let calls = calls_of(alloc, members)?;
    let settled = settle(alloc, members, known, &calls, &mut signatures, last);
    discard_calls(calls);
    settled?;
    Ok(signatures)
}

// The names of members.
fn names(alloc: Global, members: &[Member]) -> Result<Members, Memory>
    ensures { IfOk result (λ names. in_members names ≡ is_member (map function_of members.now)) }
{
    let mut names = Members::new(alloc);
    for member in members {
        names.add(&member.home, &member.def.get().name)?;
    }
    Ok(names)
}

// The lenient signature of each member, by what is known with their strict ones.
fn lenient(
    alloc: Global,
    members: &[Member],
    known: &Summaries,
    last: &mut Option<Last>,
) -> Result<List<Sig>, Memory>
    ensures { let gs = map function_of members.now in IfOk result (λ sigs. sigs ≡ map (inferred (lenient_pass gs (found known.now))) gs) }
{
    let own = Pass::Lenient(names(alloc, members)?);
    let signatures = infer_all(alloc, members, known, &own, last)?;
    Ok(signatures)
}

// Each strict signature with its lenient one.
fn pair_up(alloc: Global, strict: &[Sig], lenient: &[Sig]) -> Result<List<Summary>, Memory>
    ensures { IfOk result (λ list. list ≡ paired strict.now lenient.now) }
{
    let mut list = List::new(alloc);
    let count = strict.len().min(lenient.len());
    for at in 0..count {
        let summary = Summary {
            strict: Shared::new(alloc, strict[at].copy(alloc)?)?,
            lenient: Shared::new(alloc, lenient[at].copy(alloc)?)?,
        };
        list.add(summary)?;
    }
    Ok(list)
}

// The summaries of the members, which are known by their strict signatures from now on.
fn found_summaries(
    alloc: Global,
    members: &[Member],
    known: &mut Summaries,
    last: &mut Option<Last>,
) -> Result<List<Summary>, Memory>
    ensures value { IfOk result (λ list. list ≡ summaries (found known.old) (map function_of members.now)) }
    ensures known { let gs = map function_of members.now in OnOk result
        (found known.new ≡ with_signatures (found known.old) gs (strict_signatures (found known.old) gs)) }
{
    let signatures = strict(alloc, members, known, last)?;
    let lenient = lenient(alloc, members, known, last)?;
    let list = pair_up(alloc, signatures.as_slice(), lenient.as_slice())?;
    Ok(list)
}

/// The summaries of functions that call one another, in the order of the members, by what `known` has outside them
/// under other names. Their strict signatures are found by rounds: from none upward, all at once, joined with what each
/// round gives; from round 12 on a function that doesn't settle is widened to any arguments and any result. Their
/// lenient signatures are taken once, when the rounds are over. Afterwards `known` has each member with its summary
/// under its name, and else what it had. `Memory` if allocation fails; then `known` may hold anything.
pub fn component_summaries(
    alloc: Global,
    members: &[Member],
    known: &mut Summaries,
) -> Result<List<Summary>, Memory>
    ensures value { IfOk result (λ list. list ≡ summaries (found known.old) (map function_of members.now)) }
    ensures known { IfOk result (λ list. found known.new ≡ with_summaries (found known.old) (map function_of members.now) list) }
    ensures take { IfOk result (AllTake (map function_of members.now)) }
{
    solution_laws();
    let mut last = None;
    let found = found_summaries(alloc, members, known, &mut last);
    discard_last(last);
    let list = found?;
    enter_summaries(alloc, known, members, list.as_slice())?;
    Ok(list)
}
