//! Which of some functions call which, where each is found by its module's name and its own.
ghost use Rattle.std.specs.Prelude.{◌≡◌, ℕ, ◌<◌, ◌^◌, ◌↔◌, ◌⊎◌, ◌++◌, ◌∷◌, Bool, List, [], Some};
ghost use Rattle.std.specs.Prelude.{true, IsTrue, length, map, slice_get, Contains, IfOk, OnOk};
ghost use Rattle.components.specs.Graph.{Leads};
ghost use Rattle.core_ast.specs.declared.syntax.FunName.{FunName};
ghost use Rattle.type_kinds.specs.declared.atom.Atom.{Atom};
ghost use Rattle.call_graph.specs.Among.{CallsLast, IsLast, body_targets, name_of};
ghost use Rattle.call_graph.specs.Tables.{own_number};
ghost use Rattle.call_graph.specs.Targets.{CallTarget};
ghost use Rattle.call_graph.specs.steps.Finding.{FindsLast};
ghost use Rattle.call_graph.specs.steps.Walking.{callees};

use crate::pairs::walk_body;
use crate::table::FunctionTable;
use crate::walk::CallWalk;
use components::Graph;
use core_ast::{FunDef, FunName};
use std::alloc::Global;
use type_kinds::{Atom, Bytes, List, Memory};

/// What stands for a function of a module.
pub trait AsFunction {
    ghost use Rattle.call_graph.specs.Among.{Placed};

    ghost stands_for: { Self → Placed };

    /// The name of the function's module.
    fn module_name(&self) -> &Atom
        ensures { result.now ≡ (stands_for self.now).0 };

    /// The function's definition.
    fn definition(&self) -> &FunDef
        ensures { result.now ≡ (stands_for self.now).1 };
}

/// The calls among functions. Where some of them have one name, a call by it goes to the last.
#[derive(Drop)]
pub struct CallsAmong {
    /// Each function leads to those that call it.
    pub callers: Graph,
    /// For each function whether it is the last one of its name.
    pub last: List<bool>,
}

/// Drops calls.
pub fn discard_calls(_calls: CallsAmong) {}

// The functions by name.
fn last_table<S: AsFunction>(alloc: Global, functions: &[S]) -> Result<FunctionTable, Memory>
    ensures { IfOk result (λ table. FindsLast table (map name_of (map S.stands_for functions.now))) }
{
    let mut table = FunctionTable::new(alloc);
    for function in functions {
        table.add_exported(function.module_name(), &function.definition().name)?;
    }
    Ok(table)
}

// Whether a function has this number in a table.
fn has_number(
    table: &FunctionTable,
    home: &Atom,
    name: &FunName,
    number: u32,
) -> Result<bool, Memory>
    ensures { IfOk result (λ has. IsTrue has ↔ (own_number table.now home.now name.now ≡ Some number)) }
{
    match table.own(home, name)? {
        Some(found) => Ok(found == number),
        None => Ok(false),
    }
}

// Adds a caller to each of some functions.
fn add_caller(callers: &mut Graph, caller: u32, callees: &[u32]) -> Result<(), Memory>
    requires caller { caller < length callers.old }
    requires within { (j : ℕ) → Contains callees.now j → j < length callers.old }
    ensures added { OnOk result ((i j : ℕ) → Leads callers.new j i ↔ (Leads callers.old j i ⊎ ((i ≡ caller) × Contains callees.now j))) }
    ensures size { OnOk result (length callers.new ≡ length callers.old) }
{
    for callee in callees {
        callers.add(*callee, caller)?;
    }
    Ok(())
}

// Adds what the function of this number calls.
fn add_calls<S: AsFunction>(
    alloc: Global,
    walk: &mut CallWalk,
    calls: &mut CallsAmong,
    at: u32,
    function: &S,
) -> Result<(), Memory>
    requires locals { walk.old.locals ≡ [] }
    requires caller { at < length calls.old.callers }
    requires within { (home : Atom) (ts : List CallTarget) (j : ℕ) → Contains (callees walk.old.table home ts) j → j < length calls.old.callers }
    ensures added { let f = S.stands_for function.now in OnOk result ((i j : ℕ)
        → Leads calls.new.callers j i ↔ (Leads calls.old.callers j i ⊎ ((i ≡ at) × Contains (callees walk.old.table f.0 (body_targets f)) j))) }
    ensures size { OnOk result (length calls.new.callers ≡ length calls.old.callers) }
    ensures last { OnOk result ((b : Bool) × (calls.new.last ≡ calls.old.last ++ b ∷ [])
        × (IsTrue b ↔ (own_number walk.old.table (S.stands_for function.now).0 (S.stands_for function.now).1.name ≡ Some at))) }
    ensures table { OnOk result (walk.new.table ≡ walk.old.table) }
    ensures locals { OnOk result (walk.new.locals ≡ []) }
{
    let def = function.definition();
    walk.home = function.module_name().copy(alloc)?;
    walk_body(walk, def.fun.body.get())?;
    add_caller(&mut calls.callers, at, walk.callees.as_slice())?;
    let last = has_number(&walk.table, function.module_name(), &def.name, at)?;
    calls.last.add(last)
}

/// Which of some functions call which: in the body of one, at any depth, the other's name is applied, with any number of
/// arguments, or it is called by literal module and name, whether its module exports it or not. A call into the module
/// `erlang` is none, and of functions with the same name the last is called. The functions are numbered from 0, in their order.
///
/// `Memory`: allocation failed, there are 2^32 functions or more, or a call has as many arguments.
pub fn calls_among<S: AsFunction>(alloc: Global, functions: &[S]) -> Result<CallsAmong, Memory>
    ensures few { IfOk result (λ calls. length functions.now < 2 ^ 32) }
    ensures count { IfOk result (λ calls. length calls.callers ≡ length functions.now) }
    ensures callers { IfOk result (λ calls. (i j : ℕ) → Leads calls.callers j i ↔ CallsLast (map S.stands_for functions.now) i j) }
    ensures flags { IfOk result (λ calls. length calls.last ≡ length functions.now) }
    ensures last { IfOk result (λ calls. (j : ℕ) (h : Atom) (f : FunName) → slice_get (map name_of (map S.stands_for functions.now)) j ≡ Some (h, f)
        → (slice_get calls.last j ≡ Some true) ↔ IsLast (map name_of (map S.stands_for functions.now)) j h f) }
{
    let table = last_table(alloc, functions)?;
    let callers = Graph::new(alloc, table.count())?;
    let last = List::new(alloc);
    let mut calls = CallsAmong { callers, last };
    let nowhere = Atom::from_bytes(Bytes::new(alloc));
    let mut walk = CallWalk::new(alloc, table, nowhere);
    for at in 0..functions.len() {
        add_calls(alloc, &mut walk, &mut calls, at as u32, &functions[at])?;
    }
    Ok(calls)
}
