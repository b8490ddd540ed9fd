ghost use Rattle.std.specs.Prelude.{◌≡◌, ◌<◌, ◌⊎◌, ◌↔◌, ℕ, [], All, Contains, OnOk, OnErr, IsTrue};
ghost use Rattle.graph_core.specs.Graphs.{IsRising};

use std::alloc::{AllocError, Global};
use std::marker::Model;

/// The successors of a node, in rising order.
#[derive(Drop)]
pub struct Row {
    nodes: Vec<u32>,
}

impl Model for Row {
    ghost use Rattle.std.specs.Prelude.{List, ℕ};
    ghost use Rattle.graph_core.specs.Graphs.{IsRising};

    ghost Value = { List ℕ };

    ghost view = { λ row. row.nodes.items };

    ghost invariant = { λ row. IsRising row.nodes.items };
}

impl Row {
    /// The row of no node. Takes no memory.
    pub fn new(alloc: Global) -> Self
        ensures { result ≡ [] }
    {
        Row {
            nodes: Vec::new(alloc),
        }
    }

    /// The nodes, in rising order.
    pub fn as_slice(&self) -> &[u32]
        ensures value { result.now ≡ self.now }
        ensures rising { IsRising self.now }
    {
        self.nodes.as_slice()
    }

    /// Whether a node is among them.
    pub fn has(&self, node: u32) -> bool
        ensures { IsTrue result ↔ Contains self.now node }
    {
        self.nodes.binary_search(&node).is_ok()
    }

    /// Whether a node is higher than all of them.
    fn is_below(&self, node: u32) -> bool
        ensures { IsTrue result ↔ All (λ x. x < node) self.now }
    {
        match self.nodes.last() {
            None => true,
            Some(last) => *last < node,
        }
    }

    /// Adds a node, unless it is there. An `Err` changes nothing. A node that is higher than all others
    /// is added without a search.
    pub fn add(&mut self, node: u32) -> Result<(), AllocError>
        ensures added { OnOk result ((x : ℕ) → Contains self.new x ↔ (Contains self.old x ⊎ (x ≡ node))) }
        ensures err { OnErr result (self.new ≡ self.old) }
    {
        if self.is_below(node) {
            self.nodes.push(node)?;
            return Ok(());
        }
        self.put(node)
    }

    /// Puts a node at its place, unless it is there. An `Err` changes nothing.
    fn put(&mut self, node: u32) -> Result<(), AllocError>
        ensures added { OnOk result ((x : ℕ) → Contains self.new x ↔ (Contains self.old x ⊎ (x ≡ node))) }
        ensures err { OnErr result (self.new ≡ self.old) }
    {
        match self.nodes.binary_search(&node) {
            Ok(_) => Ok(()),
            Err(place) => {
                self.nodes.insert(place, node)?;
                Ok(())
            }
        }
    }
}
