//! The sets of a program's rules.
ghost use Rattle.std.specs.Prelude.{◌≡◌, ℕ, ◌↔◌, Contains, option_copied, IfOk};
ghost use Rattle.components.specs.Graph.{targets};
ghost use Rattle.core_meaning.specs.Programs.{Program};
ghost use Rattle.core_scope.specs.Names.{Distinct};
ghost use Rattle.fun_flow_places.specs.Naming.{AreRulesOf, module_names};
ghost use Rattle.fun_flow_places.specs.Tables.{IsTableOf};
ghost use Rattle.fun_flow_numbers.specs.Held.{AreSetsOf, HoldsNumber, item_at};

use crate::numbered::Numbered;
use crate::numbering::RuleNumbering;
use components::Graph;
use fun_flow_places::{FlowPlace, FlowRule, Item, ModuleTable};
use fun_flow_solver::solve;
use std::alloc::Global;
use std::marker::Model;
use type_kinds::Memory;

/// What places hold. Items are numbers.
#[derive(Drop)]
pub struct FunctionSets {
    places: Numbered<FlowPlace>,
    items: Numbered<Item>,
    sets: Graph,
}

impl Model for FunctionSets {
    ghost use Rattle.fun_flow_numbers.specs.Held.{HeldNumbers};

    ghost Value = { HeldNumbers };

    ghost view = { λ found. record { places = found.places; items = found.items; sets = found.sets } };
}

/// The least sets under these rules of a program with this table. `Memory` if allocation fails, or there are 2^32 places, items,
/// applications or arguments or more.
pub fn function_sets(
    alloc: Global,
    table: &ModuleTable,
    rules: &[FlowRule],
) -> Result<FunctionSets, Memory>
    ensures { IfOk result (λ sets. (U : Program) → Distinct (module_names U) → IsTableOf U table.now → AreRulesOf U rules.now → AreSetsOf U sets) }
{
    let mut numbering = RuleNumbering::new(alloc)?;
    for rule in rules {
        numbering.add(table, rule)?;
    }
    let RuleNumbering {
        places,
        items,
        problem,
        ..
    } = numbering;
    let most = places
        .len()
        .max(items.len())
        .max(problem.applications.len());
    let Ok(count) = u32::try_from(most) else {
        return Err(Memory);
    };
    let sets = solve(alloc, &problem, count)?;
    Ok(FunctionSets {
        places,
        items,
        sets,
    })
}

// What a place of this number holds; one past the sets holds nothing.
fn targets_of(sets: &Graph, number: usize) -> &[u32]
    ensures { result.now ≡ targets sets.now number }
{
    let count = sets.count() as usize;
    if number < count {
        sets.targets(number as u32)
    } else {
        &[]
    }
}

impl FunctionSets {
    /// The numbers of the items that a place holds. Takes no memory.
    pub fn held(&self, place: &FlowPlace) -> &[u32]
        ensures { (x : ℕ) → Contains result.now x ↔ HoldsNumber self.now place.now x }
    {
        match self.places.number_of(place) {
            Some(number) => targets_of(&self.sets, number),
            None => &[],
        }
    }

    /// The item of a number, or `None` where no item has it.
    pub fn item(&self, number: u32) -> Option<&Item>
        ensures { option_copied result ≡ item_at self.now number }
    {
        self.items.get(number as usize)
    }
}
