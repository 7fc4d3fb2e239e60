//! What calls and applications give for arguments of these types.
ghost use Rattle.std.specs.Prelude.{◌≡◌, ◌∷◌, is_some, IfOk};
ghost use Rattle.bif_types.specs.Table.{looked_up};
ghost use Rattle.core_scope.specs.Asks.{function_name};
ghost use Rattle.type_lattice.specs.Types.{any};
ghost use Rattle.cons_gen_rows.specs.Passes.{Knowledge};
ghost use Rattle.cons_gen_rows.specs.Slots.{slots_from};
ghost use Rattle.cons_tree.specs.Callees.{found};
ghost use Rattle.module_flow_calls.specs.Calls.{by_both, by_callee, by_part, by_row, by_signature, by_state, called, fits, may_return};

use crate::types::{Given, discard, meets, one};
use bif_types::{Bif, lookup, part};
use cons_solve::solve_slots;
use cons_tree::{Callee, Constraint, Part, Sig, Slot, Slots, Summaries, copy_types, discard_slots};
use core_ast::FunName;
use core_scope::is_text;
use std::alloc::Global;
use type_kinds::{Atom, List, Memory, Shared};
use type_lattice::Ty;

// `count` slots, from 1 on.
fn argument_slots(alloc: Global, count: usize) -> Result<List<Slot>, Memory>
    ensures { IfOk result (λ slots. slots ≡ slots_from 1 count) }
{
    let mut slots = List::new(alloc);
    for position in 0..count {
        slots.add(position as u64 + 1)?;
    }
    Ok(slots)
}

// Any, and then the arguments.
fn beginning(alloc: Global, args: &[Ty]) -> Result<List<Shared<Ty>>, Memory>
    ensures { IfOk result (λ types. types ≡ any ∷ args.now) }
{
    let mut types = List::new(alloc);
    let every = Shared::new(alloc, Ty::any())?;
    types.add(every)?;
    for arg in args {
        let copy = arg.copy()?;
        let shared = Shared::new(alloc, copy)?;
        types.add(shared)?;
    }
    Ok(types)
}

// Drops a constraint.
fn discard_constraint(_asked: Constraint) {}

// What a part alone says of the value at slot 0, for arguments from slot 1 on.
fn by_part(alloc: Global, part: Part, args: &[Ty]) -> Result<Given, Memory>
    ensures { IfOk result (λ given. given ≡ by_part part args.now) }
{
    let asked = Constraint::Part(part);
    let mut slots = Slots::new(alloc, beginning(alloc, args)?);
    let mut visits = 0;
    let answer = solve_slots(alloc, &asked, &mut slots, &mut visits);
    discard_constraint(asked);
    let alive = answer?;
    if !alive {
        discard_slots(slots);
        return Ok(None);
    }
    let value = slots.at(0).copy()?;
    discard_slots(slots);
    one(alloc, value)
}

// What a function of this signature gives.
fn by_signature(alloc: Global, sig: &Sig, args: &[Ty]) -> Result<Given, Memory>
    ensures { IfOk result (λ given. given ≡ by_signature sig.now args.now) }
{
    let slots = argument_slots(alloc, args.len())?;
    let copy = sig.copy(alloc)?;
    let sig = Shared::new(alloc, copy)?;
    by_part(alloc, Part::Call(0, slots, sig), args)
}

// The built-in function of this name with `count` arguments.
fn built_in(name: &Atom, count: usize) -> Option<Bif>
    ensures { result ≡ looked_up name.now count }
{
    match u32::try_from(count) {
        Ok(arity) => lookup(name, arity),
        Err(_) => None,
    }
}

// What a built-in function gives.
fn by_row(alloc: Global, quiet: bool, bif: Option<Bif>, args: &[Ty]) -> Result<Given, Memory>
    ensures { IfOk result (λ given. given ≡ by_row quiet bif args.now) }
{
    match bif {
        None => one(alloc, Ty::any()),
        Some(bif) => {
            let slots = argument_slots(alloc, args.len())?;
            let part = part(alloc, bif, 0, slots.as_slice(), quiet)?;
            by_part(alloc, part, args)
        }
    }
}

// What a function gives that is called by its module and its name.
fn by_callee(alloc: Global, lenient: bool, callee: &Callee, args: &[Ty]) -> Result<Given, Memory>
    ensures { (P : Knowledge) → P.lenient ≡ lenient → IfOk result (λ given. given ≡ by_callee P callee.now args.now) }
{
    match callee {
        Callee::Known(summary) => {
            if lenient {
                by_signature(alloc, summary.lenient.get(), args)
            } else {
                by_signature(alloc, summary.strict.get(), args)
            }
        }
        Callee::Local(_) | Callee::Undefined => Ok(None),
        Callee::Unknown => one(alloc, Ty::any()),
    }
}

/// What a call by a literal module and name gives. `Memory` for 2^32 arguments or more, too.
pub fn called(
    alloc: Global,
    known: &Summaries,
    lenient: bool,
    home: &Atom,
    name: &Atom,
    args: &[Ty],
) -> Result<Given, Memory>
    ensures { (P : Knowledge) → P.lenient ≡ lenient → P.callee ≡ found known.now
        → IfOk result (λ given. given ≡ called P home.now name.now args.now) }
{
    if is_text(home, b"erlang") {
        return by_row(alloc, lenient, built_in(name, args.len()), args);
    }
    let name = function_name(alloc, name, args.len())?;
    by_callee(alloc, lenient, known.find(home, &name), args)
}

/// The name of a function with `count` arguments. `Memory` for 2^32 or more, too.
pub fn function_name(alloc: Global, name: &Atom, count: usize) -> Result<FunName, Memory>
    ensures { IfOk result (λ function. function ≡ function_name name.now count) }
{
    let Ok(arity) = u32::try_from(count) else {
        return Err(Memory);
    };
    let name = name.copy(alloc)?;
    Ok(FunName { name, arity })
}

// Whether each argument has a value of the type.
fn fits(alloc: Global, types: &[Ty], others: &[Ty]) -> Result<bool, Memory>
    ensures { IfOk result (λ all. all ≡ fits types.now others.now) }
{
    for at in 0..types.len().min(others.len()) {
        let common = meets(alloc, &types[at], &others[at])?;
        if !common {
            return Ok(false);
        }
    }
    Ok(true)
}

// What both the state's result and the strict signature have.
fn by_both(alloc: Global, returned: &Ty, sig: &Sig, args: &[Ty]) -> Result<Given, Memory>
    ensures { IfOk result (λ given. given ≡ by_both returned.now sig.now args.now) }
{
    let all = fits(alloc, args, sig.args.as_slice())?;
    if !all {
        return Ok(None);
    }
    let met = returned.meet(alloc, &sig.result)?;
    one(alloc, met)
}

/// What the application of a function of the module gives, of which the state has the result.
pub fn by_state(alloc: Global, returned: Ty, callee: &Callee, args: &[Ty]) -> Result<Given, Memory>
    ensures { IfOk result (λ given. given ≡ by_state returned callee.now args.now) }
{
    match callee {
        Callee::Known(summary) | Callee::Local(summary) => {
            let given = by_both(alloc, &returned, summary.strict.get(), args);
            discard(returned);
            given
        }
        Callee::Undefined | Callee::Unknown => one(alloc, returned),
    }
}

/// Whether the application of a function of the module may return.
pub fn may_return(alloc: Global, callee: &Callee, args: &[Ty]) -> Result<bool, Memory>
    ensures { IfOk result (λ may. may ≡ is_some (may_return callee.now args.now)) }
{
    match callee {
        Callee::Known(summary) | Callee::Local(summary) => {
            let given = by_signature(alloc, summary.lenient.get(), args)?;
            Ok(given.is_some())
        }
        Callee::Undefined | Callee::Unknown => {
            let given = one(alloc, Ty::any())?;
            Ok(given.is_some())
        }
    }
}
