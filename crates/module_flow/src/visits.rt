//! Which functions a round walks again.
ghost use Rattle.std.specs.Prelude.{◌≡◌, ◌++◌, ◌∷◌, ◌<◌, ℕ, [], length, map, slice_get, slice_index, slice_set, true, Some, IfOk, OnOk};
ghost use Rattle.module_flow.specs.declared.visits.Visit.{Visit};
ghost use Rattle.module_flow_state.specs.steps.Reading.{labels_given, labels_named};
ghost use Rattle.module_flow_state.specs.steps.Changes.{AllListed, rounds_of};
ghost use Rattle.module_flow.specs.steps.Visits.{AreCandidates, first_visit, contributions_again, contributions_of_one, is_touched, visits_again};
ghost use Rattle.module_flow_state.specs.steps.Walking.{world_of};

use crate::readers::Readers;
use core_ast::FunDef;
use module_flow_calls::{DefinedFunction, NodeContext, names_of_function};
use module_flow_state::{Contribution, FlowChanges, FlowWalk, WalkContext};
use module_flow_walk::walk_function;
use std::alloc::Global;
use std::marker::Model;
use type_kinds::{List, Memory, Shared};

/// What the last walk of a function of the module read of the state, by labels.
#[derive(Drop)]
pub struct Visit {
    /// The functions with names in its text, itself too: whether, and with what, they are entered.
    pub own: List<u32>,
    /// Those that it gave something to: what they give.
    pub given: List<u32>,
}

fn discard_visit(_visit: Visit) {}

/// What the last walks of all functions of a module read. Contracts see the list of visits.
#[derive(Drop)]
pub struct Visits {
    alloc: Global,
    all: List<Visit>,
    readers: Readers,
}

impl Model for Visits {
    ghost use Rattle.std.specs.Prelude.{List};
    ghost use Rattle.module_flow.specs.declared.visits.Visit.{Visit};
    ghost use Rattle.module_flow.specs.steps.VisitCodes.{visits_code};
    ghost use Rattle.module_flow.specs.steps.Readers.{AreNoted};

    ghost Value = { List Visit };

    ghost coded = { visits_code };

    ghost view = { λ it. it.all };

    ghost invariant = { λ it. AreNoted it.readers.table it.all };
}

impl Visits {
    // No functions. Takes no memory.
    fn new(alloc: Global) -> Visits
        ensures { result ≡ [] }
    {
        Visits {
            alloc,
            all: List::new(alloc),
            readers: Readers::new(alloc),
        }
    }

    // Adds a function last.
    fn add(&mut self, visit: Visit) -> Result<(), Memory>
        ensures { OnOk result (self.new ≡ self.old ++ visit ∷ []) }
    {
        let position = self.all.len();
        self.readers.note_all(visit.own.as_slice(), position)?;
        self.readers.note_all(visit.given.as_slice(), position)?;
        self.all.add(visit)?;
        Ok(())
    }

    // What the last walk of the function at a position read.
    fn at(&self, position: usize) -> &Visit
        requires { position < length self.now }
        ensures { slice_get self.now position ≡ Some result.now }
    {
        self.all.at(position)
    }

    // Notes a walk of the function at a position that gave this.
    fn walked(&mut self, position: usize, contributions: &[Contribution]) -> Result<(), Memory>
        requires { position < length self.old }
        ensures { OnOk result ((v : Visit) → slice_get self.old position ≡ Some v
            → self.new ≡ slice_set self.old position (record { own = v.own; given = labels_given contributions.now })) }
    {
        let given = labels_given(self.alloc, contributions)?;
        let before = self.all.at(position);
        if are_same_labels(before.given.as_slice(), given.as_slice()) {
            return Ok(());
        }
        let own = before.own.copy(self.alloc)?;
        self.readers.note_all(given.as_slice(), position)?;
        discard_visit(self.all.replace(position, Visit { own, given }));
        Ok(())
    }

    /// The positions, in ascending order, of the functions for which something changed before the round for which changes were
    /// noted last, and perhaps of others.
    pub fn candidates(&self, changes: &FlowChanges) -> Result<List<usize>, Memory>
        ensures { IfOk result (λ positions. (k : ℕ) → AllListed changes.now.entered.rounds k changes.now.entered.latest
            → AllListed changes.now.given.rounds k changes.now.given.latest → AreCandidates (rounds_of changes.now) k self.now positions) }
    {
        let mut labels = changes.entered.latest.copy(self.alloc)?;
        add_labels(&mut labels, changes.given.latest.as_slice())?;
        let positions = self.readers.of(labels.as_slice())?;
        Ok(positions)
    }
}

// Adds labels last.
fn add_labels(labels: &mut List<u32>, more: &[u32]) -> Result<(), Memory>
    ensures { OnOk result (labels.new ≡ labels.old ++ more.now) }
{
    for label in more {
        labels.add(*label)?;
    }
    Ok(())
}

// Whether two lists of labels are the same.
fn are_same_labels(one: &[u32], other: &[u32]) -> bool
    ensures { result ≡ true → one.now ≡ other.now }
{
    one == other
}

// The labels of functions.
fn labels_named(alloc: Global, functions: &[DefinedFunction]) -> Result<List<u32>, Memory>
    ensures { IfOk result (λ labels. labels ≡ labels_named functions.now) }
{
    let mut labels = List::new(alloc);
    for function in functions {
        labels.add(function.label)?;
    }
    Ok(labels)
}

// The labels of the functions that contributions are for.
fn labels_given(alloc: Global, contributions: &[Contribution]) -> Result<List<u32>, Memory>
    ensures { IfOk result (λ labels. labels ≡ labels_given contributions.now) }
{
    let mut labels = List::new(alloc);
    for contribution in contributions {
        labels.add(contribution.label())?;
    }
    Ok(labels)
}

// A function that wasn't walked.
fn first_visit(alloc: Global, def: &FunDef) -> Result<Visit, Memory>
    ensures { IfOk result (λ visit. visit ≡ first_visit def.now) }
{
    let names = names_of_function(alloc, def)?;
    let own = labels_named(alloc, names.functions.as_slice())?;
    Ok(Visit {
        own,
        given: List::new(alloc),
    })
}

/// The functions of a module, none of which was walked.
pub fn first_visits(alloc: Global, defs: &[Shared<FunDef>]) -> Result<Visits, Memory>
    ensures { IfOk result (λ visits. visits ≡ map first_visit defs.now) }
{
    let mut visits = Visits::new(alloc);
    for def in defs {
        visits.add(first_visit(alloc, def.get())?)?;
    }
    Ok(visits)
}

/// The positions of all functions, where there are `count`: all of them are walked in the first round.
pub fn first_positions(alloc: Global, count: usize) -> Result<List<usize>, Memory>
    ensures many { IfOk result (λ positions. length positions ≡ count) }
    ensures each { IfOk result (λ positions. (q : ℕ) → q < count → slice_index positions q ≡ q) }
{
    let mut positions = List::new(alloc);
    for position in 0..count {
        positions.add(position)?;
    }
    Ok(positions)
}

// Whether something changed of what it read, before this round.
fn is_touched(changes: &FlowChanges, round: usize, visit: &Visit) -> bool
    ensures { result ≡ is_touched (rounds_of changes.now) round visit.now }
{
    changes.entered.any_in_round(round, visit.own.as_slice())
        || changes.given.any_in_round(round, visit.given.as_slice())
}

// What the walk of one function gives.
fn walk_one(
    alloc: Global,
    context: &WalkContext,
    around: NodeContext,
    def: &FunDef,
) -> Result<List<Contribution>, Memory>
    ensures { IfOk result (λ contributions. contributions ≡ contributions_of_one (world_of context.now) def.now) }
{
    let mut walker = FlowWalk::new(alloc, false);
    walk_function(&mut walker, context, around, def)?;
    let FlowWalk { contributions, .. } = walker;
    Ok(contributions)
}

// Adds contributions last.
fn add_contributions(list: &mut List<Contribution>, more: List<Contribution>) -> Result<(), Memory>
    ensures { OnOk result (list.new ≡ list.old ++ more) }
{
    for contribution in more.into_vec() {
        list.add(contribution)?;
    }
    Ok(())
}

// Walks the function at a position again.
fn walk_at(
    alloc: Global,
    context: &WalkContext,
    around: NodeContext,
    def: &FunDef,
    visits: &mut Visits,
    position: usize,
    contributions: &mut List<Contribution>,
) -> Result<(), Memory>
    requires { position < length visits.old }
    ensures contributions { OnOk result (contributions.new ≡ contributions.old ++ contributions_of_one (world_of context.now) def.now) }
    ensures visits { OnOk result ((v : Visit) → slice_get visits.old position ≡ Some v
        → visits.new ≡ slice_set visits.old position (record { own = v.own; given = labels_given (contributions_of_one (world_of context.now) def.now) })) }
{
    let given = walk_one(alloc, context, around, def)?;
    visits.walked(position, given.as_slice())?;
    add_contributions(contributions, given)
}

/// Walks all functions again for which something changed before this round. They are among those at these positions, which
/// stand in ascending order.
pub fn walk_again(
    alloc: Global,
    context: &WalkContext,
    around: NodeContext,
    defs: &[Shared<FunDef>],
    visits: &mut Visits,
    changes: &FlowChanges,
    round: usize,
    positions: &[usize],
) -> Result<List<Contribution>, Memory>
    requires many { length visits.old ≡ length defs.now }
    requires positions { AreCandidates (rounds_of changes.now) round visits.old positions.now }
    ensures contributions { IfOk result (λ contributions. contributions
        ≡ contributions_again (world_of context.now) (rounds_of changes.now) round defs.now visits.old) }
    ensures visits { OnOk result (visits.new ≡ visits_again (world_of context.now) (rounds_of changes.now) round defs.now visits.old) }
{
    let mut contributions = List::new(alloc);
    let mut from = 0;
    for candidate in positions {
        let position = *candidate;
        if position < from || position >= defs.len() {
            continue;
        }
        let def = defs[position].get();
        if is_touched(changes, round, visits.at(position)) {
            walk_at(
                alloc,
                context,
                around,
                def,
                visits,
                position,
                &mut contributions,
            )?;
        }
        from = position + 1;
    }
    Ok(contributions)
}
