//! Forms that pass on what is asked to their parts.
ghost use Rattle.std.specs.Prelude.{◌≡◌, IfOk};
ghost use Rattle.module_flow_walk.specs.Walk.{passed};

use cons_gen_rows::passed_on;
use core_scope::Ask;
use module_flow_calls::{Given, as_many};
use type_kinds::Memory;

/// As many types as are asked of a form that passes on what is asked.
pub fn passed(ask: Ask, given: Given) -> Result<Given, Memory>
    ensures { IfOk result (λ handing. handing ≡ passed ask given) }
{
    match given {
        None => Ok(None),
        Some(types) => Ok(Some(as_many(types, passed_on(ask))?)),
    }
}
