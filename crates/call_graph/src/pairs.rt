// What each function calls: the graph, with a pair where one function calls another, and the outside calls.
ghost use Rattle.std.specs.Prelude.{◌≡◌, ℕ, ◌+◌, ◌<◌, ◌≤◌, ◌^◌, ◌↔◌, ◌⊎◌, []};
ghost use Rattle.std.specs.Prelude.{◌++◌, length, map, Contains, IfOk, OnOk};
ghost use Rattle.components.specs.Graph.{Leads};
ghost use Rattle.core_ast.specs.Model as m;
ghost use Rattle.core_ast.specs.Tree.{module_tree, tree};
ghost use Rattle.core_scope.specs.Checked.{module_of, tree_of};
ghost use Rattle.core_scope.specs.Sets.{StandsEarlier};
ghost use Rattle.type_kinds.specs.declared.atom.Atom.{Atom};
ghost use Rattle.call_graph.specs.Calls.{Calls, functions_of, module_functions};
ghost use Rattle.call_graph.specs.Outside.{outside_of};
ghost use Rattle.call_graph.specs.Targets.{CallTarget, targets};
ghost use Rattle.call_graph.specs.steps.Walking.{PairsFrom, all_missed, callees, missed_in};

use crate::expressions::walk_expression;
use crate::table::function_table;
use crate::walk::{CallWalk, OutsideCall};
use components::Graph;
use core_ast::{Expr, Module};
use core_scope::AsChecked;
use std::alloc::Global;
use type_kinds::{Atom, Bytes, List, Memory};

/// What functions of modules call. They are numbered from 0: the modules in the order passed, each module's
/// functions in the order of its text.
#[derive(Drop)]
pub struct AllCalls {
    /// Which functions call which.
    pub graph: Graph,
    /// For each function its calls that go to none of them.
    pub outside: List<List<OutsideCall>>,
}

/// Which functions of modules with distinct names call which. The nodes are the functions, numbered from 0: the
/// modules in the order passed, each module's functions in the order of its text. There is a pair from one
/// function to another exactly where the first, in its body at any depth, applies the second's name, with any
/// number of arguments, or calls it by literal module and name and its module exports it; a call into the module
/// `erlang` gives no pair.
///
/// `Memory`: allocation failed, there are 2^32 functions or more, or a call has as many arguments.
pub fn graph<S: AsChecked>(alloc: Global, mods: &[S]) -> Result<Graph, Memory>
    requires distinct { (j : ℕ) → j < length mods.now → StandsEarlier (map (λ s. (module_of (S.stands_for s)).name) mods.now) j → ⊥ }
    ensures counted { IfOk result (λ graph. length graph ≡ length (functions_of (map (λ s. tree_of (S.stands_for s)) mods.now))) }
    ensures pairs { IfOk result (λ graph. (i j : ℕ) → Leads graph i j ↔ Calls (map (λ s. tree_of (S.stands_for s)) mods.now) i j) }
{
    let calls = all_calls(alloc, mods)?;
    Ok(calls.graph)
}

/// The graph of `graph`, and for each function, by its number, the calls in its body, at any depth, by
/// literal module and name that go to none of the functions, in the order of the text: the module isn't among
/// those passed, or it doesn't export such a function. Calls into the module `erlang` are left out.
///
/// `Memory`: as of `graph`.
pub fn all_calls<S: AsChecked>(alloc: Global, mods: &[S]) -> Result<AllCalls, Memory>
    requires distinct { (j : ℕ) → j < length mods.now → StandsEarlier (map (λ s. (module_of (S.stands_for s)).name) mods.now) j → ⊥ }
    ensures counted { IfOk result (λ calls. length calls.graph ≡ length (functions_of (map (λ s. tree_of (S.stands_for s)) mods.now))) }
    ensures pairs { IfOk result (λ calls. (i j : ℕ) → Leads calls.graph i j ↔ Calls (map (λ s. tree_of (S.stands_for s)) mods.now) i j) }
    ensures outside { IfOk result (λ calls. let xs = map (λ s. tree_of (S.stands_for s)) mods.now in calls.outside
        ≡ map (outside_of xs) (functions_of xs)) }
{
    let table = function_table(alloc, mods)?;
    let graph = Graph::new(alloc, table.count())?;
    let outside = List::new(alloc);
    let mut calls = AllCalls { graph, outside };
    let nowhere = Atom::from_bytes(Bytes::new(alloc));
    let mut walk = CallWalk::new(alloc, table, nowhere);
    let mut next = 0;
    for source in mods {
        next = add_module(
            alloc,
            &mut walk,
            &mut calls,
            next,
            source.checked().module(),
        )?;
    }
    Ok(calls)
}

// Adds what the functions of a module call, which are numbered from `first` on, and gives the number behind them.
fn add_module(
    alloc: Global,
    walk: &mut CallWalk,
    calls: &mut AllCalls,
    first: u32,
    source: &Module,
) -> Result<u32, Memory>
    requires locals { walk.old.locals ≡ [] }
    requires few { length calls.old.graph < 2 ^ 32 }
    requires room { first + length (module_functions (module_tree source.now)) ≤ length calls.old.graph }
    requires within { (home : Atom) (ts : List CallTarget) (j : ℕ) → Contains (callees walk.old.table home ts) j → j < length calls.old.graph }
    ensures next { IfOk result (λ next. next ≡ first + length (module_functions (module_tree source.now))) }
    ensures pairs { OnOk result ((i j : ℕ) → Leads calls.new.graph i j
        ↔ (Leads calls.old.graph i j ⊎ PairsFrom walk.old.table first (module_functions (module_tree source.now)) i j)) }
    ensures size { OnOk result (length calls.new.graph ≡ length calls.old.graph) }
    ensures outside { OnOk result (calls.new.outside ≡ calls.old.outside ++ map (missed_in walk.old.table) (module_functions (module_tree source.now))) }
    ensures table { OnOk result (walk.new.table ≡ walk.old.table) }
    ensures locals { OnOk result (walk.new.locals ≡ []) }
{
    walk.home = source.name.copy(alloc)?;
    let mut caller = first;
    let defs = source.defs.as_slice();
    for def in defs {
        let def = def.get();
        walk_body(walk, def.fun.body.get())?;
        add_pairs(&mut calls.graph, caller, walk.callees.as_slice())?;
        calls.outside.add(walk.take_outside())?;
        caller += 1;
    }
    Ok(caller)
}

// The numbers of the functions that a body calls, and its outside calls.
pub(crate) fn walk_body(walk: &mut CallWalk, body: &Expr) -> Result<(), Memory>
    ensures { OnOk result (let found = targets walk.old.locals (tree body.now) in walk.new
        ≡ record walk.old { callees = callees walk.old.table walk.old.home found; outside = all_missed walk.old.table found }) }
{
    walk.forget();
    walk_expression(walk, body)
}

// Adds pairs from one function to others.
fn add_pairs(graph: &mut Graph, from: u32, callees: &[u32]) -> Result<(), Memory>
    requires from { from < length graph.old }
    requires within { (j : ℕ) → Contains callees.now j → j < length graph.old }
    ensures pairs { OnOk result ((i j : ℕ) → Leads graph.new i j ↔ (Leads graph.old i j ⊎ ((i ≡ from) × Contains callees.now j))) }
    ensures size { OnOk result (length graph.new ≡ length graph.old) }
{
    for to in callees {
        graph.add(from, *to)?;
    }
    Ok(())
}
