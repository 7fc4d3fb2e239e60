//! What is known of the functions of modules that are analysed together.
ghost use Rattle.std.specs.Prelude.{◌≡◌, ℕ, ◌<◌, length, map, IfOk, OnOk};
ghost use Rattle.core_scope.specs.Checked.{module_of, tree_of};
ghost use Rattle.core_scope.specs.Sets.{StandsEarlier};
ghost use Rattle.call_graph.specs.Calls.{functions_of};
ghost use Rattle.cons_tree.specs.Callees.{found};
ghost use Rattle.analysis_summaries.specs.Known.{known_over};
ghost use Rattle.analysis_summaries.specs.Whole.{IsWholeOver};

use crate::functions::{all_members, discard_members};
use crate::known::{close_modules, solve_all};
use call_graph::graph;
use components::{Comps, components};
use cons_tree::Summaries;
use core_scope::AsChecked;
use std::alloc::Global;
use type_kinds::Memory;

/// Solves the functions of modules with distinct names, component by component, in the order in which they call each
/// other, over what is known of functions of other modules, and answers how many functions there are. Then it is known
/// what was, and of the modules what was solved; what was known of their names before doesn't matter. `Memory` if
/// allocation fails, or where there are 2^32 functions or more; then what is known is of no use.
pub fn solve_modules<S: AsChecked>(
    alloc: Global,
    mods: &[S],
    known: &mut Summaries,
) -> Result<u32, Memory>
    requires distinct { (j : ℕ) → j < length mods.now → StandsEarlier (map (λ s. (module_of (S.stands_for s)).name) mods.now) j → ⊥ }
    ensures known { OnOk result (IsWholeOver (found known.old) (map (λ s. tree_of (S.stands_for s)) mods.now) (found known.new)) }
    ensures functions { IfOk result (λ functions. functions ≡ length (functions_of (map (λ s. tree_of (S.stands_for s)) mods.now))) }
{
    let graph = graph(alloc, mods)?;
    let comps = components(alloc, &graph)?;
    solve_in_order(alloc, mods, &comps, known)?;
    Ok(graph.count())
}

// Solves the functions of modules, where their components have these numbers.
fn solve_in_order<S: AsChecked>(
    alloc: Global,
    mods: &[S],
    comps: &Comps,
    known: &mut Summaries,
) -> Result<(), Memory>
    ensures { OnOk result (found known.new ≡ known_over (found known.old) (map (λ s. tree_of (S.stands_for s)) mods.now) comps.now) }
{
    close_modules(mods, known)?;
    let members = all_members(alloc, mods)?;
    let done = solve_all(alloc, &members, comps, known);
    discard_members(members);
    done
}
