ghost use Rattle.std.specs.Prelude.{◌≡◌, ◌↔◌, ◌<◌, ◌≤◌, ◌^◌, ℕ, [], ◌∷◌, None, Some, List, length, replicate, slice_set, IfOk, OnOk, IsTrue};
ghost use Rattle.graph_core.specs.Paths.{LiesOnFirstPath, Reaches};
ghost use Rattle.graph_core.specs.Search.{IsSearch, node_at, parent_at, last_at, number_of};
ghost use Rattle.graph_core.specs.Walk.{found_more, left_at};

use std::alloc::{AllocError, Global};
use std::marker::Model;

/// The first paths from a root to all that it reaches, as the tree of a depth first search that
/// takes lower successors first.
#[derive(Drop)]
pub struct FirstPaths {
    /// The nodes in the order in which they were found, which is how they are numbered here.
    order: Vec<u32>,
    /// For each number that of the node before it on its first path.
    parents: Vec<u32>,
    /// For each number the last number of those whose first path it lies on.
    lasts: Vec<u32>,
    /// The number of each node.
    numbers: Vec<Option<u32>>,
}

impl Model for FirstPaths {
    ghost use Rattle.graph_core.specs.Search.{Found};

    ghost Value = { Found };

    ghost view = { λ paths. record {
      order = paths.order.items;
      parents = paths.parents.items;
      lasts = paths.lasts.items;
      numbers = paths.numbers.items;
    } };
}

impl FirstPaths {
    /// The root alone, of so many nodes.
    pub(crate) fn begin(alloc: Global, nodes: u32, root: u32) -> Result<Self, AllocError>
        requires { root < nodes }
        ensures { IfOk result (λ paths. paths ≡ record {
          order = root ∷ [];
          parents = 0 ∷ [];
          lasts = nodes ∷ [];
          numbers = slice_set (replicate nodes None) root (Some 0);
        }) }
    {
        let order = vec![in alloc; root]?;
        let parents = vec![in alloc; 0]?;
        let lasts = vec![in alloc; nodes]?;
        let mut numbers = vec![in alloc; None; nodes as usize]?;
        numbers[root as usize] = Some(0);
        Ok(FirstPaths {
            order,
            parents,
            lasts,
            numbers,
        })
    }

    /// Adds a node that was found from the one with the number `from`.
    pub(crate) fn find(&mut self, node: u32, from: u32) -> Result<(), AllocError>
        requires node { node < length self.old.numbers }
        requires few { length self.old.order < 2 ^ 32 }
        requires nodes { length self.old.numbers < 2 ^ 32 }
        ensures { OnOk result (self.new ≡ found_more self.old node from) }
    {
        let number = self.order.len() as u32;
        let nodes = self.numbers.len() as u32;
        self.order.push(node)?;
        self.parents.push(from)?;
        self.lasts.push(nodes)?;
        self.numbers[node as usize] = Some(number);
        Ok(())
    }

    /// Leaves the node with this number.
    pub(crate) fn leave(&mut self, number: u32)
        requires number { number < length self.old.lasts }
        requires some { 0 < length self.old.order }
        requires few { length self.old.order < 2 ^ 32 }
        ensures { self.new ≡ left_at self.old number }
    {
        self.lasts[number as usize] = (self.order.len() - 1) as u32;
    }

    /// The node with this number.
    pub(crate) fn node(&self, number: u32) -> u32
        requires { number < length self.now.order }
        ensures { result ≡ node_at self.now number }
    {
        self.order[number as usize]
    }

    /// The number of the node before the one with this number on its first path.
    pub(crate) fn parent(&self, number: u32) -> u32
        requires { number < length self.now.parents }
        ensures { result ≡ parent_at self.now number }
    {
        self.parents[number as usize]
    }

    /// The number of a node, if it was found.
    pub(crate) fn number(&self, node: u32) -> Option<u32>
        requires { node < length self.now.numbers }
        ensures { result ≡ number_of self.now node }
    {
        self.numbers[node as usize]
    }

    /// How many nodes were found.
    pub(crate) fn found(&self) -> usize
        ensures { result ≡ length self.now.order }
    {
        self.order.len()
    }

    /// Whether the second number is among those of the nodes that the first leads to.
    fn is_between(&self, upper: u32, number: u32) -> bool
        requires { upper < length self.now.lasts }
        ensures { IsTrue result ↔ ((upper ≤ number) × (number ≤ last_at self.now upper)) }
    {
        upper <= number && number <= self.lasts[upper as usize]
    }

    /// Whether the root reaches a node.
    pub fn reaches(&self, node: u32) -> bool
        requires { node < length self.now.numbers }
        ensures { (g : List (List ℕ)) (root : ℕ) → IsSearch g root self.now
            → (IsTrue result ↔ Reaches g root node) }
    {
        self.number(node).is_some()
    }

    /// Whether `h` lies on the first path to a node. None leads to a node that the root doesn't reach.
    pub fn lies_on(&self, h: u32, node: u32) -> bool
        requires h { h < length self.now.numbers }
        requires node { node < length self.now.numbers }
        requires search { (g : List (List ℕ)) × (root : ℕ) × IsSearch g root self.now }
        ensures { (g : List (List ℕ)) (root : ℕ) → IsSearch g root self.now
            → (IsTrue result ↔ LiesOnFirstPath g root h node) }
    {
        let Some(upper) = self.number(h) else {
            return false;
        };
        let Some(number) = self.number(node) else {
            return false;
        };
        self.is_between(upper, number)
    }
}
