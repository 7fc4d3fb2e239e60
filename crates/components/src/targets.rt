ghost use Rattle.std.specs.List.{list_any};
ghost use Rattle.std.specs.Prelude.{◌≡◌, ◌==◌, [], OnOk, OnErr};
ghost use Rattle.components.specs.Graph.{with_target};

use indexmap::IndexSet;
use std::alloc::Global;
use std::marker::Model;
use type_kinds::Memory;

/// The nodes that one node leads to, each once. Contracts see them as a list, in the order in which
/// they were added.
#[derive(Drop)]
pub struct Targets {
    nodes: IndexSet<u32>,
}

impl Model for Targets {
    ghost use Rattle.std.specs.Prelude.{List, ℕ};

    ghost Value = { List ℕ };

    ghost view = { λ targets. targets.nodes.keys };
}

impl Targets {
    /// No nodes. Takes no memory.
    pub fn new(alloc: Global) -> Targets
        ensures { result ≡ [] }
    {
        Targets {
            nodes: IndexSet::new(alloc),
        }
    }

    /// All nodes, first to last.
    pub fn as_slice(&self) -> &[u32]
        ensures { result.now ≡ self.now }
    {
        self.nodes.as_slice()
    }

    /// Whether a node is among them.
    pub fn has(&self, node: u32) -> bool
        ensures { result ≡ list_any (λ x. node == x) self.now }
    {
        self.nodes.contains(&node)
    }

    /// Adds a node last; one that is there already changes nothing. If allocation fails, the nodes
    /// stay as they were.
    pub fn insert(&mut self, node: u32) -> Result<(), Memory>
        ensures ok { OnOk result (self.new ≡ with_target self.old node) }
        ensures err { OnErr result (self.new ≡ self.old) }
    {
        match self.nodes.insert(node) {
            Ok(_) => Ok(()),
            Err(_) => Err(Memory),
        }
    }
}
