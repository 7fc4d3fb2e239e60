//! From an environment to the greatest solution below it.
ghost use Rattle.std.specs.Prelude.{◌≡◌, ◌+◌, ◌≤◌, ℕ, IfOk, MatchOption, Some, None};
ghost use Rattle.type_lattice.specs.Types.{Type4};
ghost use Rattle.cons_tree.specs.Constraints.{constraint};
ghost use Rattle.cons_tree.specs.Environments.{env_of, on_types, state_of};
ghost use Rattle.cons_tree.specs.Signatures.{has_none};
ghost use Rattle.cons_tree.specs.Trails.{answer, Falling};
ghost use Rattle.cons_solve.specs.Environments.{solution, summed_over};

use crate::counted::{Steps, count_slots};
use crate::solving::solve_slots;
use cons_tree::{Constraint, Env, Slots, discard_slots, own_types, share_types};
use std::alloc::Global;
use std::sync::ledger::Ledger;
use type_kinds::{List, Memory};
use type_lattice::Ty;

// Whether one of the types is none.
fn any_none(types: &[Ty]) -> bool
    ensures { result ≡ has_none types.now }
{
    types.iter().any(|ty| ty.is_none())
}

// Drops types.
fn discard_types(_types: List<Ty>) {}

// The array of an environment, and nothing for Bottom.
fn entered(alloc: Global, begin: Env) -> Result<Option<Slots>, Memory>
    ensures { IfOk result (λ found. MatchOption found (state_of begin ≡ None) (λ slots. state_of begin ≡ Some slots.types)) }
{
    match begin {
        Env::Bottom => Ok(None),
        Env::Types(types) => {
            if any_none(types.as_slice()) {
                discard_types(types);
                return Ok(None);
            }
            let shared = share_types(alloc, types.as_slice())?;
            discard_types(types);
            Ok(Some(Slots::new(alloc, shared)))
        }
    }
}

// The environment that is left.
fn left(alloc: Global, alive: bool, slots: Slots) -> Result<Env, Memory>
    ensures { IfOk result (λ e. e ≡ env_of (answer alive slots.types)) }
{
    if alive {
        let types = own_types(alloc, slots.types.as_slice())?;
        discard_slots(slots);
        return Ok(Env::Types(types));
    }
    discard_slots(slots);
    Ok(Env::Bottom)
}

/// The greatest solution of the constraint below the environment: the types that are as large as the
/// constraint allows. It is Bottom where the constraint leaves no value for a slot. `Memory` comes if
/// allocation fails, or for a tuple of 2^32 slots or more.
pub fn solve(alloc: Global, c: &Constraint, begin: Env) -> Result<Env, Memory>
    ensures { IfOk result (λ e. e ≡ env_of (on_types (state_of begin) (solution (constraint c.now)))) }
{
    let mut visits = 0;
    solve_noted(alloc, c, begin, &mut visits)
}

/// As `solve`, and raises `visits` by one, up to the type's end, for each part that it narrows.
pub fn solve_noted(
    alloc: Global,
    c: &Constraint,
    begin: Env,
    visits: &mut u64,
) -> Result<Env, Memory>
    ensures { IfOk result (λ e. e ≡ env_of (on_types (state_of begin) (solution (constraint c.now)))) }
{
    match entered(alloc, begin)? {
        None => Ok(Env::Bottom),
        Some(mut slots) => {
            let alive = solve_slots(alloc, c, &mut slots, visits)?;
            let env = left(alloc, alive, slots)?;
            Ok(env)
        }
    }
}

/// As `solve`, with a tick for each turn of the outermost list that lowers a type or leaves no
/// environment. A turn solves one member. The ticks are at most one more than the sum of the heights of
/// the beginning types, and so by every measure of types that falls; a list that is solved without a
/// tick leaves the environment as it was. Turns inside alternatives and inner lists aren't counted.
pub fn solve_counted<L: Ledger>(
    alloc: Global,
    c: &Constraint,
    begin: Env,
    steps: &mut Steps<L>,
) -> Result<Env, Memory>
    ensures value { IfOk result (λ e. e ≡ env_of (on_types (state_of begin) (solution (constraint c.now)))) }
    ensures cost { IfOk result (λ _. (h : Type4 → ℕ) → Falling h → steps.new ≤ steps.old + (1 + summed_over h (state_of begin))) }
    ensures still { IfOk result (λ e. (members : List Constraint) → c.now ≡ Constraint.All members → steps.new ≡ steps.old
        → e ≡ env_of (state_of begin)) }
{
    match entered(alloc, begin)? {
        None => Ok(Env::Bottom),
        Some(mut slots) => {
            let mut visits = 0;
            let alive = count_slots(alloc, c, &mut slots, &mut visits, steps)?;
            let env = left(alloc, alive, slots)?;
            Ok(env)
        }
    }
}
