ghost use Rattle.std.specs.Prelude.{◌≡◌, ℕ, ◌+◌, ◌<◌, ◌≤◌, ◌^◌, ◌⊎◌, [], ◌∷◌, ◌++◌, length};
ghost use Rattle.std.specs.Prelude.{replicate, sum_by, slice_index, IfOk, OnOk, IfSome, IfNone};
ghost use Rattle.components.specs.Graph.{Leads};
ghost use Rattle.components.specs.steps.Order.{IsOrdered, Ordered, unranked, rank_of, Ranked, TakenFrom};
ghost use Rattle.components.specs.steps.Order.{FirstWatchers, IsAcyclic, IsInside, InReadyOrder, AllRanked, RanksAre};

use crate::node_set::NodeSet;
use std::alloc::Global;
use type_kinds::{List, Memory};

/// A component that waits for the number of one of its callees.
#[derive(Clone, Copy)]
pub struct Watcher {
    /// The component.
    pub component: u32,
    /// The position of the callee in the list of its callees.
    pub at: usize,
}

/// The state of the numbering.
#[derive(Drop)]
pub struct Order {
    /// The number of each component, if it has one.
    pub ranks: Vec<Option<u32>>,
    /// The components whose callees have numbers.
    pub ready: NodeSet,
    /// For each component the components that wait for its number.
    pub watchers: List<List<Watcher>>,
    /// Components that have to look for the next callee without a number.
    pub again: List<Watcher>,
    /// How many numbers are given.
    pub count: u32,
}

impl Order {
    // No component has a number, and each has to look for a callee without one.
    fn new(alloc: Global, callees: &[List<u32>]) -> Result<Order, Memory>
        requires { length callees.now < 2 ^ 32 }
        ensures { IfOk result (λ order. IsOrdered callees.now order) }
    {
        let mut ranks = Vec::new(alloc);
        match ranks.resize(callees.len(), None) {
            Ok(()) => {}
            Err(_) => return Err(Memory),
        }
        let count = callees.len() as u32;
        Ok(Order {
            ranks,
            ready: NodeSet::new(alloc),
            watchers: List::empty_lists(alloc, callees.len())?,
            again: first_watchers(alloc, count)?,
            count: 0,
        })
    }

    // Lets each component that has to look find its next callee without a number.
    fn position_all(&mut self, callees: &[List<u32>]) -> Result<(), Memory>
        requires inside { IsInside callees.now }
        requires ordered { IsOrdered callees.now self.old }
        ensures ordered { OnOk result (IsOrdered callees.now self.new) }
        ensures again { OnOk result (self.new.again ≡ []) }
        ensures ranks { self.new.ranks.items ≡ self.old.ranks.items }
    {
        while let Some(looking) = self.again.pop() {
            self.position(callees, looking)?;
        }
        Ok(())
    }

    // Lets a component watch its next callee without a number. If there is none, it is ready.
    fn position(&mut self, callees: &[List<u32>], looking: Watcher) -> Result<(), Memory>
        requires inside { IsInside callees.now }
        requires ordered { Ordered callees.now self.old.ranks.items self.old.ready self.old.watchers (self.old.again ++ looking ∷ []) self.old.count }
        ensures ordered { OnOk result (IsOrdered callees.now self.new) }
        ensures ranks { self.new.ranks.items ≡ self.old.ranks.items }
        ensures again { self.new.again ≡ self.old.again }
    {
        let Watcher { component, at } = looking;
        let own = &callees[component as usize];
        let own = own.as_slice();
        let to = self.advance(own, at);
        if to >= own.len() {
            return self.ready.insert(component);
        }
        let callee = own[to];
        self.watchers
            .add_at(callee as usize, Watcher { component, at: to })
    }

    // The first position from here on whose callee has no number, or the end.
    fn advance(&self, own: &[u32], at: usize) -> usize
        requires inside { (k : ℕ) → k < length own.now → slice_index own.now k < length self.now.ranks.items }
        ensures from { at ≤ result }
        ensures passed { (k : ℕ) → at ≤ k → k < result → k < length own.now → Ranked self.now.ranks.items (slice_index own.now k) }
        ensures stop { result < length own.now → rank_of self.now.ranks.items (slice_index own.now result) ≡ None }
    {
        let mut to = at;
        while to < own.len() {
            if let None = self.ranks[own[to] as usize] {
                return to;
            }
            to += 1;
        }
        to
    }

    // Takes the least ready component without a number, if there is one.
    fn take_ready(&mut self, callees: &[List<u32>]) -> Option<u32>
        requires ordered { IsOrdered callees.now self.old }
        ensures some { IfSome result (λ component. TakenFrom callees.now self.new component) }
        ensures none { IfNone result (IsOrdered callees.now self.new × (self.new.ready ≡ [])) }
        ensures again { self.new.again ≡ self.old.again }
        ensures ranks { self.new.ranks.items ≡ self.old.ranks.items }
    {
        while let Some(component) = self.ready.take_least() {
            if let None = self.ranks[component as usize] {
                return Some(component);
            }
        }
        None
    }

    // Gives the next number to a component. Those that wait for it have to look again.
    fn give(&mut self, alloc: Global, callees: &[List<u32>], component: u32)
        requires short { length callees.now < 2 ^ 32 }
        requires none { self.old.again ≡ [] }
        requires taken { TakenFrom callees.now self.old component }
        ensures ordered { IsOrdered callees.now self.new }
        ensures unranked { sum_by unranked self.new.ranks.items + 1 ≡ sum_by unranked self.old.ranks.items }
    {
        self.ranks[component as usize] = Some(self.count);
        self.count += 1;
        self.again = self.watchers.replace(component as usize, List::new(alloc));
    }
}

/// Numbers for components, from the lists of their callees: each number goes to the least component that
/// has none and whose callees have theirs. Gives the number of each component, and how many numbers there
/// are.
pub fn ready_order(alloc: Global, callees: &[List<u32>]) -> Result<(List<u32>, u32), Memory>
    requires short { length callees.now < 2 ^ 32 }
    requires inside { IsInside callees.now }
    requires acyclic { IsAcyclic callees.now }
    ensures { IfOk result (λ given. InReadyOrder callees.now given.0 given.1) }
{
    let mut order = Order::new(alloc, callees)?;
    order.position_all(callees)?;
    while let Some(component) = order.take_ready(callees) {
        order.give(alloc, callees, component);
        order.position_all(callees)?;
    }
    let numbers = numbers(alloc, order.ranks.as_slice())?;
    Ok((numbers, order.count))
}

// The numbers, where each component has one.
fn numbers(alloc: Global, ranks: &[Option<u32>]) -> Result<List<u32>, Memory>
    requires { AllRanked ranks.now }
    ensures { IfOk result (λ numbers. RanksAre ranks.now numbers) }
{
    let mut numbers = List::new(alloc);
    for rank in ranks {
        let Some(number) = *rank else {
            unreachable!();
        };
        numbers.add(number)?;
    }
    Ok(numbers)
}

// Every component, at the position of its first callee.
fn first_watchers(alloc: Global, count: u32) -> Result<List<Watcher>, Memory>
    ensures { IfOk result (λ watchers. FirstWatchers watchers count) }
{
    let mut watchers = List::new(alloc);
    for component in 0..count {
        watchers.add(Watcher { component, at: 0 })?;
    }
    Ok(watchers)
}
