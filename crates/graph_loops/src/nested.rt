ghost use Rattle.std.specs.Prelude.{◌≡◌, ◌<◌, None, length, slice_index_or};

use graph_core::loops::{Loop, Nest};
use std::marker::Model;

/// The loops of a graph, of which each is entered at one node alone, with the innermost loop of each node, the
/// parent of each loop, and an order of the nodes.
#[derive(Drop)]
pub struct NestedLoops {
    pub(crate) nest: Nest,
    pub(crate) innermost: Vec<Option<u32>>,
    pub(crate) parents: Vec<Option<u32>>,
    pub(crate) order: Vec<u32>,
}

impl Model for NestedLoops {
    ghost use Rattle.graph_loops.specs.Nesting.{Nested};

    ghost Value = { Nested };

    ghost view = { λ n. record {
      loops = n.nest;
      innermost = n.innermost.items;
      parents = n.parents.items;
      order = n.order.items;
    } };
}

impl NestedLoops {
    /// The loops, in the order of their entries.
    pub fn loops(&self) -> &[Loop]
        ensures { result.now ≡ self.now.loops }
    {
        self.nest.loops()
    }

    /// The entry of the innermost loop that holds a node.
    pub fn innermost(&self, node: u32) -> Option<u32>
        requires { node < length self.now.innermost }
        ensures { result ≡ slice_index_or self.now.innermost node None }
    {
        self.innermost[node as usize]
    }

    /// The entry of the innermost loop that holds a node and doesn't begin there: where a loop begins at the
    /// node, this is the loop's parent.
    pub fn parent(&self, node: u32) -> Option<u32>
        requires { node < length self.now.parents }
        ensures { result ≡ slice_index_or self.now.parents node None }
    {
        self.parents[node as usize]
    }

    /// The nodes that the root reaches, in an order in which each edge that is no back edge goes forward.
    pub fn order(&self) -> &[u32]
        ensures { result.now ≡ self.now.order }
    {
        self.order.as_slice()
    }
}
