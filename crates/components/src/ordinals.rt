ghost use Rattle.std.specs.Prelude.{◌≡◌, ℕ, ◌+◌, ◌<◌, ◌^◌, length, slice_index, IfOk};
ghost use Rattle.components.specs.steps.Ordinals.{HasOrdinals, NextOrdinal};

use std::alloc::Global;
use type_kinds::{List, Memory};

/// Ordinals for components, in the order of their least nodes. Gives the ordinal of each node's
/// component, and how many ordinals there are.
pub fn first_ordinals(
    alloc: Global,
    component_of: &[u32],
    count: u32,
) -> Result<(List<u32>, u32), Memory>
    requires short { length component_of.now < 2 ^ 32 }
    requires below { (f : ℕ) → f < length component_of.now → slice_index component_of.now f < count }
    ensures { IfOk result (λ given. HasOrdinals component_of.now given.0 given.1) }
{
    let mut table: Vec<Option<u32>> = Vec::new(alloc);
    match table.resize(count as usize, None) {
        Ok(()) => {}
        Err(_) => return Err(Memory),
    }
    let mut ordinals = List::new(alloc);
    let mut given: u32 = 0;
    for component in component_of {
        let ordinal = ordinal_for(&mut table, &mut given, *component);
        ordinals.add(ordinal)?;
    }
    Ok((ordinals, given))
}

// The ordinal of a component, which is the next ordinal where the component hasn't been met.
fn ordinal_for(table: &mut Vec<Option<u32>>, given: &mut u32, component: u32) -> u32
    requires component { component < length table.old.items }
    requires room { given.old + 1 < 2 ^ 32 }
    ensures { NextOrdinal table.old.items given.old component result table.new.items given.new }
{
    if let Some(ordinal) = table[component as usize] {
        return ordinal;
    }
    let ordinal = *given;
    table[component as usize] = Some(ordinal);
    *given = ordinal + 1;
    ordinal
}
