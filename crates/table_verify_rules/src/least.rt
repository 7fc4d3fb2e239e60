//! The least name of a module that isn't as it should be.
ghost use Rattle.std.specs.Prelude.{◌≡◌, cond, IfOk, Some};
ghost use Rattle.table_verify_rules.specs.steps.Lesser.{lesser_name};

use std::alloc::Global;
use std::cmp::Ordering;
use type_kinds::{Atom, Memory};

/// The lesser of two names, of which the first may be missing. `Memory` if allocation fails.
pub fn lesser(alloc: Global, least: Option<Atom>, name: &Atom) -> Result<Option<Atom>, Memory>
    ensures { IfOk result (λ lesser. lesser ≡ lesser_name least (Some name.now)) }
{
    match least {
        Some(least) => match name.cmp(&least) {
            Ordering::Less => Ok(Some(name.copy(alloc)?)),
            _ => Ok(Some(least)),
        },
        None => Ok(Some(name.copy(alloc)?)),
    }
}

/// The same, where only the name of what isn't as it should be counts. `Memory` if allocation fails.
pub fn lesser_unless(
    alloc: Global,
    holds: bool,
    least: Option<Atom>,
    name: &Atom,
) -> Result<Option<Atom>, Memory>
    ensures { IfOk result (λ lesser. lesser ≡ cond holds least (lesser_name least (Some name.now))) }
{
    if holds {
        Ok(least)
    } else {
        lesser(alloc, least, name)
    }
}
