//! When functions of the flow changed last.
ghost use Rattle.std.specs.Prelude.{◌≡◌, ◌++◌, ◌-◌, [], ℕ, cond, length, nat_eq, replicate, slice_index_or, OnOk};
ghost use Rattle.std.specs.List.{list_any};
ghost use Rattle.module_flow_state.specs.steps.Changes.{MoreNoted, in_round, rounds_of};

use std::alloc::Global;
use type_kinds::{List, Memory};

/// For each label, the number of the round before which the function last changed. Before round 0 all did.
#[derive(Drop)]
pub struct Changes {
    pub rounds: List<usize>,
    /// The labels of those that changed before the round for which changes are noted now.
    pub latest: List<u32>,
}

impl Changes {
    /// No function changed since. Takes no memory.
    pub fn new(alloc: Global) -> Changes
        ensures rounds { result.rounds ≡ [] }
        ensures latest { result.latest ≡ [] }
    {
        Changes {
            rounds: List::new(alloc),
            latest: List::new(alloc),
        }
    }

    /// Changes are noted for another round from here on. Takes no memory.
    pub fn begin(&mut self)
        ensures rounds { self.new.rounds ≡ self.old.rounds }
        ensures latest { self.new.latest ≡ [] }
    {
        self.latest.truncate(0);
    }

    /// Notes that a function changed before this round.
    pub fn note(&mut self, label: u32, round: usize) -> Result<(), Memory>
        ensures rounds { OnOk result ((k l : ℕ) → in_round self.new.rounds k l ≡ cond (nat_eq label l) (nat_eq round k) (in_round self.old.rounds k l)) }
        ensures more { OnOk result (MoreNoted self.old self.new round) }
    {
        if self.last(label) == round {
            return Ok(());
        }
        let position = label as usize;
        self.reach(position + 1)?;
        let _before = self.rounds.replace(position, round);
        self.latest.add(label)?;
        Ok(())
    }

    // Extends the rounds to at least `count` labels.
    fn reach(&mut self, count: usize) -> Result<(), Memory>
        ensures rounds { OnOk result (self.new.rounds ≡ self.old.rounds ++ replicate (count - length self.old.rounds) 0) }
        ensures latest { self.new.latest ≡ self.old.latest }
    {
        let missing = count.saturating_sub(self.rounds.len());
        for _at in 0..missing {
            self.rounds.add(0)?;
        }
        Ok(())
    }

    // The round before which a function changed last.
    fn last(&self, label: u32) -> usize
        ensures { result ≡ slice_index_or self.now.rounds label 0 }
    {
        match self.rounds.get(label as usize) {
            Some(round) => *round,
            None => 0,
        }
    }

    /// Whether one of these functions changed before this round.
    pub fn any_in_round(&self, round: usize, labels: &[u32]) -> bool
        ensures { result ≡ list_any (in_round self.now.rounds round) labels.now }
    {
        for label in labels {
            if self.last(*label) == round {
                return true;
            }
        }
        false
    }
}

/// When functions of the flow changed last: with what they are entered, and what they give.
#[derive(Drop)]
pub struct FlowChanges {
    /// With what they are entered, and whether.
    pub entered: Changes,
    /// What they give.
    pub given: Changes,
}

impl FlowChanges {
    /// No function changed since. Takes no memory.
    pub fn new(alloc: Global) -> FlowChanges
        ensures entered { result.entered.rounds ≡ [] }
        ensures given { result.given.rounds ≡ [] }
    {
        FlowChanges {
            entered: Changes::new(alloc),
            given: Changes::new(alloc),
        }
    }

    /// Changes are noted for another round from here on. Takes no memory.
    pub fn begin(&mut self)
        ensures rounds { rounds_of self.new ≡ rounds_of self.old }
        ensures entered { self.new.entered.latest ≡ [] }
        ensures given { self.new.given.latest ≡ [] }
    {
        self.entered.begin();
        self.given.begin();
    }
}
