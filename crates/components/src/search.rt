ghost use Rattle.std.specs.Prelude.{◌≡◌, ℕ, ◌+◌, ◌-◌, ◌<◌, ◌≤◌, [], ◌∷◌, ◌++◌, length, take, sum_by, slice_index};
ghost use Rattle.std.specs.Prelude.{slice_index_or, IfOk, OnOk, IfSome, IfNone, MatchOption, vec_len};
ghost use Rattle.components.specs.Graph.{IsGraph};
ghost use Rattle.components.specs.steps.Search.{state_of, fresh, Closes};
ghost use Rattle.components.specs.steps.State.{IsSound, Enterable, Idle, IsLook, TopIs, LeadsBack, IsKnown};

use crate::graph::Graph;
use std::alloc::Global;
use type_kinds::{List, Memory};

/// How far the search is with a node.
#[derive(Clone, Copy)]
pub enum NodeState {
    /// The search hasn't seen it.
    Unseen,
    /// It is on the path, at this position.
    Open(usize),
    /// It is of this component.
    Closed(u32),
}

/// A part of the path whose nodes all reach each other.
#[derive(Clone, Copy)]
pub struct Block {
    /// The position of its first node on the path.
    pub first: usize,
    /// How many pending targets are of earlier blocks.
    pub below: usize,
}

/// The state of the search.
#[derive(Drop)]
pub struct Search {
    /// How far it is with each node.
    pub states: Vec<NodeState>,
    /// The open nodes: each reaches those that come after it.
    pub path: List<u32>,
    /// Targets of open nodes that have to be looked at.
    pub pending: Vec<u32>,
    /// The blocks that the path is cut into.
    pub blocks: List<Block>,
    /// All nodes below this one have been seen.
    pub cursor: u32,
    /// How many components are closed.
    pub count: u32,
}

/// What is to be done with the last block.
pub enum Look {
    /// This node, to which the block leads, is to be opened.
    Enter(u32),
    /// The block is a whole component.
    Close,
    /// The block is of one component with the block before it.
    Merge,
    /// The last pending target needs nothing.
    Settled,
}

impl Search {
    /// The search before its first step.
    pub fn new(alloc: Global, graph: &Graph) -> Result<Search, Memory>
        ensures { IfOk result (λ search. IsSound graph.now search) }
    {
        let count = graph.count() as usize;
        let mut states = Vec::new(alloc);
        match states.resize(count, NodeState::Unseen) {
            Ok(()) => Ok(Search {
                states,
                path: List::new(alloc),
                pending: Vec::new(alloc),
                blocks: List::new(alloc),
                cursor: 0,
                count: 0,
            }),
            Err(_) => Err(Memory),
        }
    }

    /// Goes on until there is a node to be opened, and gives it. Gives `None` exactly where the
    /// search is at its end.
    pub fn next(&mut self, graph: &Graph) -> Option<u32>
        requires graph { IsGraph graph.now }
        requires sound { IsSound graph.now self.old }
        ensures sound { IsSound graph.now self.new }
        ensures fresh { sum_by fresh self.new.states.items ≡ sum_by fresh self.old.states.items }
        ensures node { IfSome result (λ node. Enterable graph.now self.new node) }
        ensures end { IfNone result (Idle graph.now self.new) }
    {
        loop {
            let Some(top) = last_of(&self.blocks) else {
                return self.next_root(graph);
            };
            match self.look(graph, top) {
                Look::Enter(node) => return Some(node),
                Look::Close => self.close(graph, top),
                Look::Merge => self.merge(graph, top),
                Look::Settled => self.settle(graph, top),
            }
        }
    }

    // Goes on to the next node that hasn't been seen, where no node is open.
    fn next_root(&mut self, graph: &Graph) -> Option<u32>
        requires sound { IsSound graph.now self.old }
        requires empty { self.old.blocks ≡ [] }
        ensures sound { IsSound graph.now self.new }
        ensures states { self.new.states.items ≡ self.old.states.items }
        ensures node { IfSome result (λ node. Enterable graph.now self.new node) }
        ensures end { IfNone result (Idle graph.now self.new) }
    {
        let count = graph.count();
        while self.cursor < count {
            if let NodeState::Unseen = self.states[self.cursor as usize] {
                return Some(self.cursor);
            }
            self.cursor += 1;
        }
        None
    }

    // What is to be done with the last block.
    fn look(&self, graph: &Graph, top: Block) -> Look
        requires graph { IsGraph graph.now }
        requires sound { IsSound graph.now self.now }
        requires top { TopIs self.now.blocks top }
        ensures { IsLook graph.now self.now top result }
    {
        if self.pending.len() <= top.below {
            return Look::Close;
        }
        let target = self.pending[self.pending.len() - 1];
        match self.states[target as usize] {
            NodeState::Unseen => Look::Enter(target),
            NodeState::Closed(_) => Look::Settled,
            NodeState::Open(position) => {
                if position < top.first {
                    Look::Merge
                } else {
                    Look::Settled
                }
            }
        }
    }

    // Joins the last block to the block before it.
    fn merge(&mut self, graph: &Graph, top: Block)
        requires sound { IsSound graph.now self.old }
        requires top { TopIs self.old.blocks top }
        requires back { LeadsBack self.old top }
        ensures sound { IsSound graph.now self.new }
        ensures states { self.new.states.items ≡ self.old.states.items }
        ensures pending { self.new.pending.items ≡ self.old.pending.items }
        ensures blocks { length self.new.blocks + 1 ≡ length self.old.blocks }
    {
        let _ = self.blocks.pop();
    }

    // Drops the last pending target.
    fn settle(&mut self, graph: &Graph, top: Block)
        requires sound { IsSound graph.now self.old }
        requires top { TopIs self.old.blocks top }
        requires known { IsKnown self.old top }
        ensures sound { IsSound graph.now self.new }
        ensures states { self.new.states.items ≡ self.old.states.items }
        ensures pending { length self.new.pending.items + 1 ≡ length self.old.pending.items }
        ensures blocks { self.new.blocks ≡ self.old.blocks }
    {
        let _ = self.pending.pop();
    }

    // Gives the nodes of the last block the next number.
    fn close(&mut self, graph: &Graph, top: Block)
        requires graph { IsGraph graph.now }
        requires sound { IsSound graph.now self.old }
        requires top { TopIs self.old.blocks top }
        requires idle { length self.old.pending.items ≤ top.below }
        ensures sound { IsSound graph.now self.new }
        ensures fresh { sum_by fresh self.new.states.items ≡ sum_by fresh self.old.states.items }
        ensures pending { self.new.pending.items ≡ self.old.pending.items }
        ensures blocks { length self.new.blocks + 1 ≡ length self.old.blocks }
    {
        shut(
            &mut self.states,
            self.path.as_slice(),
            top.first,
            self.count,
        );
        self.path.truncate(top.first);
        let _ = self.blocks.pop();
        self.count += 1;
    }

    /// Opens a node. If allocation fails, the search can't go on.
    pub fn open(&mut self, graph: &Graph, node: u32) -> Result<(), Memory>
        requires sound { IsSound graph.now self.old }
        requires node { Enterable graph.now self.old node }
        ensures sound { OnOk result (IsSound graph.now self.new) }
        ensures fresh { OnOk result (sum_by fresh self.new.states.items + 1 ≡ sum_by fresh self.old.states.items) }
    {
        let block = Block {
            first: self.path.len(),
            below: self.pending.len(),
        };
        self.blocks.add(block)?;
        self.path.add(node)?;
        match self.pending.extend_from_slice(graph.targets(node)) {
            Ok(()) => {}
            Err(_) => return Err(Memory),
        }
        self.states[node as usize] = NodeState::Open(block.first);
        Ok(())
    }
}

// Closes the nodes of the path from a position on, with one number.
fn shut(states: &mut Vec<NodeState>, path: &[u32], first: usize, number: u32)
    requires first { first ≤ length path.now }
    requires on_path { (p : ℕ) → p < length path.now → state_of states.old.items (slice_index path.now p) ≡ NodeState.Open p }
    requires nodes { (p : ℕ) → p < length path.now → slice_index path.now p < length states.old.items }
    ensures { Closes states.old.items states.new.items path.now first (length path.now) number }
{
    for position in first..path.len() {
        let node = path[position];
        states[node as usize] = NodeState::Closed(number);
    }
}

// The last block.
fn last_of(blocks: &List<Block>) -> Option<Block>
    ensures { MatchOption result (blocks.now ≡ []) (λ top. TopIs blocks.now top) }
{
    if blocks.is_empty() {
        return None;
    }
    Some(*blocks.at(blocks.len() - 1))
}
