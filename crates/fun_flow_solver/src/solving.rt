ghost use Rattle.std.specs.Prelude.{◌≡◌, ℕ, ◌<◌, ◌≤◌, ◌⊎◌, ◌↔◌, Contains, length, IfOk, OnOk};
ghost use Rattle.fun_flow_solver.specs.declared.problem.Edge.{Edge};
ghost use Rattle.fun_flow_solver.specs.declared.problem.Pair.{Pair};
ghost use Rattle.components.specs.Graph.{Leads};
ghost use Rattle.fun_flow_solver.specs.Holds.{IsBelow, Holds};
ghost use Rattle.fun_flow_solver.specs.steps.Work.{AreAt, Moves};

use crate::problem::{Pair, Problem};
use crate::work::{put, step};
use components::Graph;
use std::alloc::Global;
use type_kinds::Memory;

/// The positions of the applications in their list, under their operators.
fn applications_by_operator(alloc: Global, problem: &Problem, count: u32) -> Result<Graph, Memory>
    requires below { IsBelow problem.now count }
    requires few { length problem.now.applications.items ≤ count }
    ensures at { IfOk result (λ applications_at. AreAt problem.now applications_at (length problem.now.applications.items)) }
    ensures count { IfOk result (λ applications_at. length applications_at ≡ count) }
{
    let applications = problem.applications.as_slice();
    let mut applications_at = Graph::new(alloc, count)?;
    for number in 0..applications.len() {
        let application = applications[number];
        applications_at.add(application.operator, number as u32)?;
    }
    Ok(applications_at)
}

/// The edges that the rules have.
fn first_edges(alloc: Global, problem: &Problem, count: u32) -> Result<Graph, Memory>
    requires below { IsBelow problem.now count }
    ensures count { IfOk result (λ out. length out ≡ count) }
    ensures just { IfOk result (λ out. (p q x : ℕ) → Leads out p q → Holds problem.now p x → Holds problem.now q x) }
    ensures all { IfOk result (λ out. (e : Edge) → Contains problem.now.flows.items e → Leads out e.from e.to) }
{
    let flows = problem.flows.as_slice();
    let mut out = Graph::new(alloc, count)?;
    for number in 0..flows.len() {
        let edge = flows[number];
        out.add(edge.from, edge.to)?;
    }
    Ok(out)
}

/// Puts what places hold from the beginning.
fn start(problem: &Problem, sets: &mut Graph, queue: &mut Vec<Pair>) -> Result<(), Memory>
    requires below { IsBelow problem.now (length sets.old) }
    ensures moves { OnOk result (Moves sets.old queue.old.items sets.new queue.new.items) }
    ensures only { OnOk result ((p x : ℕ) → Leads sets.new p x → Leads sets.old p x ⊎ Holds problem.now p x) }
    ensures all { OnOk result ((s : Pair) → Contains problem.now.starts.items s → Leads sets.new s.place s.item) }
{
    let starts = problem.starts.as_slice();
    for number in 0..starts.len() {
        let pair = starts[number];
        put(sets, queue, pair.place, pair.item)?;
    }
    Ok(())
}

/// The least sets under the rules, for places and items with numbers below `count`: a place leads to the items that it
/// holds. There are no more applications than numbers. `Memory`: there is no memory for the sets or for what waits.
pub fn solve(alloc: Global, problem: &Problem, count: u32) -> Result<Graph, Memory>
    requires below { IsBelow problem.now count }
    requires few { length problem.now.applications.items ≤ count }
    ensures { IfOk result (λ sets. (p x : ℕ) → Leads sets p x ↔ Holds problem.now p x) }
{
    let applications_at = applications_by_operator(alloc, problem, count)?;
    let mut out = first_edges(alloc, problem, count)?;
    let mut sets = Graph::new(alloc, count)?;
    let mut queue = Vec::new(alloc);
    start(problem, &mut sets, &mut queue)?;
    for _ in 0..u64::MAX {
        match queue.pop() {
            None => return Ok(sets),
            Some(pair) => {
                step(
                    alloc,
                    problem,
                    &applications_at,
                    &mut sets,
                    &mut out,
                    &mut queue,
                    pair,
                )?;
            }
        }
    }
    Err(Memory)
}
