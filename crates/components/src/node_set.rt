ghost use Rattle.std.specs.Prelude.{◌≡◌, ℕ, ◌<◌, ◌↔◌, ◌⊎◌, [], ◌∷◌, ◌++◌, Contains, IfOk, OnOk, MatchOption};
ghost use Rattle.components.specs.Lists.{Ascending};

use std::alloc::Global;
use std::collections::BTreeSet;
use std::marker::Model;
use type_kinds::{List, Memory};

/// A set of numbers. Contracts see them as a list, ascending.
#[derive(Drop)]
pub struct NodeSet {
    nodes: BTreeSet<u32>,
}

impl Model for NodeSet {
    ghost use Rattle.std.specs.Prelude.{List, ℕ};
    ghost use Rattle.std.specs.Ordering.{nat_cmp};
    ghost use Rattle.std.specs.BTreeSet.{IsOrdered};

    ghost Value = { List ℕ };

    ghost view = { λ set. set.nodes.keys };

    ghost invariant = { λ set. IsOrdered nat_cmp set.nodes };
}

impl NodeSet {
    /// The empty set. Takes no memory.
    pub fn new(alloc: Global) -> NodeSet
        ensures { result ≡ [] }
    {
        NodeSet {
            nodes: BTreeSet::new(alloc),
        }
    }

    /// Adds a number; one that is there already changes nothing.
    pub fn insert(&mut self, node: u32) -> Result<(), Memory>
        ensures { OnOk result ((x : ℕ) → Contains self.new x ↔ (Contains self.old x ⊎ (x ≡ node))) }
    {
        match self.nodes.insert(node) {
            Ok(_) => Ok(()),
            Err(_) => Err(Memory),
        }
    }

    /// Takes the least number out: `None` exactly where the set is empty.
    pub fn take_least(&mut self) -> Option<u32>
        ensures least { MatchOption result ((self.old ≡ []) × (self.new ≡ [])) (λ least. self.old ≡ least ∷ self.new) }
        ensures sorted { Ascending self.old }
    {
        self.nodes.pop_first()
    }

    /// The numbers, ascending.
    pub fn into_list(self, alloc: Global) -> Result<List<u32>, Memory>
        ensures items { IfOk result (λ list. list ≡ self) }
        ensures sorted { IfOk result (λ list. Ascending list) }
    {
        let NodeSet { mut nodes } = self;
        let mut list = List::new(alloc);
        while let Some(least) = nodes.pop_first() {
            list.add(least)?;
        }
        Ok(list)
    }
}
