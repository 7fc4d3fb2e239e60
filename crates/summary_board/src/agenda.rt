ghost use Rattle.std.specs.Prelude.{◌≡◌, ◌≢◌, ◌↔◌, ◌⊎◌, ◌++◌, ◌∷◌, [], ℕ, ◌+◌, ◌*◌, ◌^◌, ◌<◌, ◌≤◌};
ghost use Rattle.std.specs.Prelude.{All, IsTrue, IfOk, OnOk, MatchOption, cond, map, nat_eq, length, replicate};
ghost use Rattle.summary_board.specs.Machine.{called, waiting};
ghost use Rattle.summary_board.specs.steps.Agenda.{times, count_at, AreCallers, Tracks, Lowered};
ghost use Rattle.summary_board.specs.steps.Rows.{IsMarked, IsLeastMarked};

use crate::looks::Looks;
use crate::progress::called_at;
use crate::rows::Rows;
use std::alloc::Global;
use type_kinds::{List, Memory};

/// Which components are ready, kept so that neither a take nor a finish looks through all of them: of
/// each component its callers, and how many of its callees aren't done; and the set of those that are
/// ready.
#[derive(Drop)]
pub struct Agenda {
    callers: List<List<u32>>,
    counts: List<usize>,
    unfinished: u32,
    ready: Rows,
}

impl Agenda {
    /// The agenda of components with these callees that all wait.
    pub fn new(alloc: Global, callees: &List<List<u32>>) -> Result<Agenda, Memory>
        requires few { length callees.now < 2 ^ 32 }
        requires below { (c : ℕ) → c < length callees.now → All (λ d. d < c) (called callees.now c) }
        ensures { IfOk result (λ it. Tracks callees.now (replicate (length callees.now) waiting) it.callers it.counts it.unfinished it.ready) }
    {
        let callers = callers_of(alloc, callees)?;
        let counts = counts_of(alloc, callees)?;
        let ready = without_callees(alloc, callees)?;
        Ok(Agenda {
            callers,
            counts,
            unfinished: callees.len() as u32,
            ready,
        })
    }

    /// Whether all components are done. Takes no memory.
    pub fn is_over(&self, looks: &mut Looks) -> bool
        ensures { IsTrue result ↔ (self.now.unfinished ≡ 0) }
    {
        looks.add();
        self.unfinished == 0
    }

    /// The least ready component. Takes no memory.
    pub fn least(&self, looks: &mut Looks) -> Option<usize>
        ensures { MatchOption result ((n : ℕ) → IsMarked self.now.ready n → ⊥) (λ least. IsLeastMarked self.now.ready least) }
    {
        self.ready.least(looks)
    }

    /// Notes that a component was taken. Takes no memory.
    pub fn take(&mut self, c: usize, looks: &mut Looks)
        requires { c < 64 * length self.old.ready }
        ensures ready { (n : ℕ) → IsMarked self.new.ready n ↔ ((n ≢ c) × IsMarked self.old.ready n) }
        ensures room { length self.new.ready ≡ length self.old.ready }
        ensures callers { self.new.callers ≡ self.old.callers }
        ensures counts { self.new.counts ≡ self.old.counts }
        ensures unfinished { self.new.unfinished ≡ self.old.unfinished }
    {
        self.ready.clear(c, looks);
    }

    /// Notes that a component is done: each of its callers has one callee less that isn't done. Takes
    /// no memory.
    pub fn finish(&mut self, c: usize, looks: &mut Looks)
        requires within { c < length self.old.callers }
        requires some { 0 < self.old.unfinished }
        requires counts { (k : ℕ) → times k (called self.old.callers c) ≤ count_at self.old.counts k }
        requires room { length self.old.counts ≤ 64 * length self.old.ready }
        ensures lowered { Lowered (called self.old.callers c) self.old.counts self.new.counts self.old.ready self.new.ready }
        ensures unfinished { self.new.unfinished + 1 ≡ self.old.unfinished }
        ensures callers { self.new.callers ≡ self.old.callers }
    {
        self.unfinished -= 1;
        let callers = called_at(&self.callers, c);
        lower_all(callers.as_slice(), &mut self.counts, &mut self.ready, looks);
    }
}

// Lowers the count of a caller by one, and marks it if no callee is left that isn't done.
fn lower(counts: &mut List<usize>, ready: &mut Rows, looks: &mut Looks, caller: usize)
    requires some { 0 < count_at counts.old caller }
    requires room { length counts.old ≤ 64 * length ready.old }
    ensures { Lowered (caller ∷ []) counts.old counts.new ready.old ready.new }
{
    looks.add();
    let count = counts.as_slice()[caller] - 1;
    counts.replace(caller, count);
    if count == 0 {
        ready.mark(caller, looks);
    }
}

// Lowers the counts of all these callers.
fn lower_all(callers: &[u32], counts: &mut List<usize>, ready: &mut Rows, looks: &mut Looks)
    requires some { (k : ℕ) → times k callers.now ≤ count_at counts.old k }
    requires room { length counts.old ≤ 64 * length ready.old }
    ensures { Lowered callers.now counts.old counts.new ready.old ready.new }
{
    for caller in callers {
        lower(counts, ready, looks, *caller as usize);
    }
}

// The callers of each component.
fn callers_of(alloc: Global, callees: &List<List<u32>>) -> Result<List<List<u32>>, Memory>
    requires few { length callees.now < 2 ^ 32 }
    requires below { (c : ℕ) → c < length callees.now → All (λ d. d < c) (called callees.now c) }
    ensures inverse { IfOk result (λ callers. AreCallers callees.now callers) }
    ensures as_many { IfOk result (λ callers. length callers ≡ length callees.now) }
{
    let mut callers: List<List<u32>> = List::empty_lists(alloc, callees.len())?;
    for c in 0..callees.len() {
        add_caller(&mut callers, called_at(callees, c).as_slice(), c as u32)?;
    }
    Ok(callers)
}

// Adds a caller to the lists of all that it calls.
fn add_caller(callers: &mut List<List<u32>>, numbers: &[u32], c: u32) -> Result<(), Memory>
    requires { All (λ d. d < length callers.old) numbers.now }
    ensures added { OnOk result ((b d : ℕ) → times b (called callers.new d)
        ≡ times b (called callers.old d) + cond (nat_eq b c) (times d numbers.now) 0) }
    ensures as_many { OnOk result (length callers.new ≡ length callers.old) }
{
    for d in numbers {
        callers.add_at(*d as usize, c)?;
    }
    Ok(())
}

// How many callees each component has.
fn counts_of(alloc: Global, callees: &List<List<u32>>) -> Result<List<usize>, Memory>
    ensures { IfOk result (λ counts. counts ≡ map length callees.now) }
{
    let mut counts: List<usize> = List::new(alloc);
    for called in callees.as_slice() {
        counts.add(called.len())?;
    }
    Ok(counts)
}

// The components without callees, as a set.
fn without_callees(alloc: Global, callees: &List<List<u32>>) -> Result<Rows, Memory>
    requires { length callees.now < 2 ^ 32 }
    ensures exact { IfOk result (λ ready. (c : ℕ) → IsMarked ready c ↔ ((c < length callees.now) × (called callees.now c ≡ []))) }
    ensures room { IfOk result (λ ready. length callees.now ≤ 64 * length ready) }
{
    let mut looks = Looks::new();
    let mut ready = Rows::new(alloc, callees.len() as u32)?;
    for c in 0..callees.len() {
        if callees.as_slice()[c].is_empty() {
            ready.mark(c, &mut looks);
        }
    }
    Ok(ready)
}
