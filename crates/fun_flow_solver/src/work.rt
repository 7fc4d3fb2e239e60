ghost use Rattle.std.specs.Prelude.{◌≡◌, ℕ, ◌<◌, ◌⊎◌, ◌↔◌, List, Option, Some, None, Contains, length, IfOk, OnOk};
ghost use Rattle.fun_flow_solver.specs.declared.problem.Application.{Application};
ghost use Rattle.fun_flow_solver.specs.declared.problem.Pair.{Pair};
ghost use Rattle.fun_flow_solver.specs.declared.problem.Problem.{Problem};
ghost use Rattle.components.specs.Graph.{Leads, IsGraph, targets};
ghost use Rattle.fun_flow_solver.specs.Holds.{IsBelow, Holds};
ghost use Rattle.fun_flow_solver.specs.steps.Work.{AreAt, Grows, IsApplied, IsWork, Keeps, Moves, Waits};

use crate::problem::{Application, Gives, Pair, Problem, entered};
use components::Graph;
use std::alloc::Global;
use type_kinds::Memory;

/// Puts an item into a place, and into the queue where it is new there.
#[tactic(auto, using(crate::proofs::Working::put_there, crate::proofs::Working::moves_none))]
pub fn put(sets: &mut Graph, queue: &mut Vec<Pair>, place: u32, item: u32) -> Result<(), Memory>
    requires place { place < length sets.old }
    requires item { item < length sets.old }
    ensures moves { OnOk result (Moves sets.old queue.old.items sets.new queue.new.items) }
    ensures only { OnOk result ((p x : ℕ) → Leads sets.new p x → Leads sets.old p x ⊎ ((p ≡ place) × (x ≡ item))) }
    ensures there { OnOk result (Leads sets.new place item) }
{
    if sets.has(place, item) {
        return Ok(());
    }
    sets.add(place, item)?;
    match queue.push(Pair { place, item }) {
        Ok(()) => Ok(()),
        Err(_) => Err(Memory),
    }
}

/// Puts an item of a place into all places to which its edges lead.
pub fn spread(
    sets: &mut Graph,
    queue: &mut Vec<Pair>,
    out: &Graph,
    place: u32,
    item: u32,
) -> Result<(), Memory>
    requires place { place < length out.now }
    requires item { item < length sets.old }
    requires inside { (q : ℕ) → Leads out.now place q → q < length sets.old }
    ensures moves { OnOk result (Moves sets.old queue.old.items sets.new queue.new.items) }
    ensures only { OnOk result ((p x : ℕ) → Leads sets.new p x → Leads sets.old p x ⊎ (Leads out.now place p × (x ≡ item))) }
    ensures there { OnOk result ((q : ℕ) → Leads out.now place q → Leads sets.new q item) }
{
    for to in out.targets(place) {
        put(sets, queue, *to, item)?;
    }
    Ok(())
}

/// A copy of the items that a place holds now.
fn items_of(alloc: Global, sets: &Graph, place: u32) -> Result<Vec<u32>, Memory>
    requires { place < length sets.now }
    ensures { IfOk result (λ items. items.items ≡ targets sets.now place) }
{
    let mut items = Vec::new(alloc);
    for item in sets.targets(place) {
        if items.push(*item).is_err() {
            return Err(Memory);
        }
    }
    Ok(items)
}

/// Puts all that one place holds into another.
pub fn send(
    alloc: Global,
    sets: &mut Graph,
    queue: &mut Vec<Pair>,
    from: u32,
    to: u32,
) -> Result<(), Memory>
    requires from { from < length sets.old }
    requires to { to < length sets.old }
    requires inside { (x : ℕ) → Leads sets.old from x → x < length sets.old }
    ensures moves { OnOk result (Moves sets.old queue.old.items sets.new queue.new.items) }
    ensures only { OnOk result ((p x : ℕ) → Leads sets.new p x → Leads sets.old p x ⊎ ((p ≡ to) × Leads sets.old from x)) }
    ensures there { OnOk result ((x : ℕ) → Leads sets.old from x → Leads sets.new to x) }
{
    let items = items_of(alloc, sets, from)?;
    for item in items.as_slice() {
        put(sets, queue, to, *item)?;
    }
    Ok(())
}

/// Adds an edge, and sends along it all that its first place holds.
pub fn link(
    alloc: Global,
    sets: &mut Graph,
    out: &mut Graph,
    queue: &mut Vec<Pair>,
    from: u32,
    to: u32,
) -> Result<(), Memory>
    requires from { from < length sets.old }
    requires to { to < length sets.old }
    requires edge_count { length out.old ≡ length sets.old }
    ensures keeps { (P : Problem) → ((x : ℕ) → Holds P from x → Holds P to x)
        → OnOk result (Keeps P sets.old out.old queue.old.items sets.new out.new queue.new.items) }
    ensures added { OnOk result (Leads out.new from to) }
{
    let _count = sets.count();
    send(alloc, sets, queue, from, to)?;
    out.add(from, to)
}

/// Applies an item of the operator of a application.
pub fn apply_one(
    alloc: Global,
    problem: &Problem,
    sets: &mut Graph,
    out: &mut Graph,
    queue: &mut Vec<Pair>,
    application: Application,
    item: u32,
) -> Result<(), Memory>
    requires below { IsBelow problem.now (length sets.old) }
    requires edge_count { length out.old ≡ length sets.old }
    requires application { Contains problem.now.applications.items application }
    requires held_there { Holds problem.now application.operator item }
    ensures keeps { OnOk result (Keeps problem.now sets.old out.old queue.old.items sets.new out.new queue.new.items) }
    ensures applied { OnOk result (IsApplied problem.now sets.new out.new application item) }
{
    match entered(problem.items.as_slice(), item, application.arity) {
        Gives::Nothing => Ok(()),
        Gives::Unknown => put(sets, queue, application.place, 0),
        Gives::Body(result) => link(alloc, sets, out, queue, result, application.place),
    }
}

/// Applies an item of a place at all applications of which the place is the operator.
pub fn apply_all(
    alloc: Global,
    problem: &Problem,
    applications_at: &Graph,
    sets: &mut Graph,
    out: &mut Graph,
    queue: &mut Vec<Pair>,
    place: u32,
    item: u32,
) -> Result<(), Memory>
    requires place { place < length applications_at.now }
    requires at { AreAt problem.now applications_at.now (length problem.now.applications.items) }
    requires below { IsBelow problem.now (length sets.old) }
    requires edge_count { length out.old ≡ length sets.old }
    requires held_there { Holds problem.now place item }
    ensures keeps { OnOk result (Keeps problem.now sets.old out.old queue.old.items sets.new out.new queue.new.items) }
    ensures applied { OnOk result ((c : Application) → Contains problem.now.applications.items c → c.operator ≡ place
        → IsApplied problem.now sets.new out.new c item) }
{
    for number in applications_at.targets(place) {
        let application = problem.applications[*number as usize];
        apply_one(alloc, problem, sets, out, queue, application, item)?;
    }
    Ok(())
}

/// Does a pair that was taken out of the queue.
pub fn step(
    alloc: Global,
    problem: &Problem,
    applications_at: &Graph,
    sets: &mut Graph,
    out: &mut Graph,
    queue: &mut Vec<Pair>,
    pair: Pair,
) -> Result<(), Memory>
    requires applications_count { length applications_at.now ≡ length sets.old }
    requires at { AreAt problem.now applications_at.now (length problem.now.applications.items) }
    requires below { IsBelow problem.now (length sets.old) }
    requires edge_count { length out.old ≡ length sets.old }
    requires work { IsWork problem.now (Some pair) sets.old out.old queue.old.items }
    requires held { Leads sets.old pair.place pair.item }
    ensures count { OnOk result (length sets.new ≡ length sets.old) }
    ensures edge_count { OnOk result (length out.new ≡ length out.old) }
    ensures grown { OnOk result (Grows sets.old sets.new) }
    ensures edges { OnOk result (Grows out.old out.new) }
    ensures work { OnOk result (IsWork problem.now None sets.new out.new queue.new.items) }
{
    let _edge_count = out.count();
    spread(sets, queue, out, pair.place, pair.item)?;
    apply_all(
        alloc,
        problem,
        applications_at,
        sets,
        out,
        queue,
        pair.place,
        pair.item,
    )
}
