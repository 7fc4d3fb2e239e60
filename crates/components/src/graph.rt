ghost use Rattle.std.specs.List.{list_any};
ghost use Rattle.std.specs.Prelude.{◌≡◌, ◌==◌, ℕ, ◌<◌, ◌↔◌, ◌⊎◌, [], length, replicate, IfOk, OnOk, OnErr};
ghost use Rattle.components.specs.Graph.{targets, Leads, IsGraph, with_pair};

use crate::targets::Targets;
use std::alloc::Global;
use std::marker::Model;
use type_kinds::{List, Memory};

/// A graph whose nodes are numbers from 0. Contracts see, for each node, the list of the nodes that it
/// leads to.
#[derive(Drop)]
pub struct Graph {
    leads: Vec<Targets>,
}

impl Model for Graph {
    ghost use Rattle.std.specs.Prelude.{List, ℕ};

    ghost Value = { List (List ℕ) };

    ghost use Rattle.components.specs.Graph.{IsGraph};

    ghost view = { λ graph. graph.leads.items };

    ghost invariant = { λ graph. IsGraph graph.leads.items };
}

impl Graph {
    /// A graph of this many nodes, without pairs. Fails only if allocation fails.
    pub fn new(alloc: Global, count: u32) -> Result<Graph, Memory>
        ensures value { IfOk result (λ graph. graph ≡ replicate count []) }
        ensures count { IfOk result (λ graph. length graph ≡ count) }
        ensures none { IfOk result (λ graph. (f g : ℕ) → Leads graph f g → ⊥) }
    {
        let mut leads = List::new(alloc);
        for _ in 0..count {
            leads.add(Targets::new(alloc))?;
        }
        Ok(Graph {
            leads: leads.into_vec(),
        })
    }

    /// How many nodes there are.
    pub fn count(&self) -> u32
        ensures count { result ≡ length self.now }
        ensures graph { IsGraph self.now }
    {
        self.leads.len() as u32
    }

    /// The nodes that a node leads to.
    pub fn targets(&self, node: u32) -> &[u32]
        requires { node < length self.now }
        ensures { result.now ≡ targets self.now node }
    {
        let found = &self.leads[node as usize];
        found.as_slice()
    }

    /// Whether a node leads to another; it is found by its hash.
    pub fn has(&self, from: u32, to: u32) -> bool
        requires { from < length self.now }
        ensures { result ≡ list_any (λ x. to == x) (targets self.now from) }
    {
        let found = &self.leads[from as usize];
        found.has(to)
    }

    /// Adds a pair: the node `from` leads to the node `to`. A pair that is there already changes
    /// nothing; it is found by its hash. The only error is that allocation fails, and then the graph
    /// stays as it was.
    pub fn add(&mut self, from: u32, to: u32) -> Result<(), Memory>
        requires from { from < length self.old }
        requires to { to < length self.old }
        ensures ok { OnOk result (self.new ≡ with_pair self.old from to) }
        ensures pairs { OnOk result ((f g : ℕ) → Leads self.new f g ↔ (Leads self.old f g ⊎ ((f ≡ from) × (g ≡ to)))) }
        ensures count { length self.new ≡ length self.old }
        ensures err { OnErr result (self.new ≡ self.old) }
    {
        let found = &mut self.leads[from as usize];
        found.insert(to)
    }
}
