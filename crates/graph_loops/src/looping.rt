ghost use Rattle.std.specs.Prelude.{◌≡◌, ◌<◌, ℕ, Err, length, IfOk, OnOk};
ghost use Rattle.graph_core.specs.declared.loops.NestFault.TheVariants as faults;
ghost use Rattle.graph_core.specs.Loops.{IsAlsoEntered};
ghost use Rattle.graph_core.specs.Nests.{IsFirstEntered};
ghost use Rattle.graph_loops.specs.Nesting.{IsNested};

use crate::ahead::forward_order;
use crate::around::{Rooted, innermosts, parents};
use crate::nested::NestedLoops;
use graph_core::loops::NestFault;
use graph_core::{Graph, first_paths, nest};
use std::alloc::Global;

/// The loops of what the root reaches, with the innermost loop of each node, the parent of each loop, and an order
/// of the nodes. `TwoEntries` tells of the loop with the lowest entry that is also entered elsewhere, and of the
/// lowest such node.
pub fn loops(alloc: Global, g: &Graph, root: u32) -> Result<NestedLoops, NestFault>
    requires { root < length g.now }
    ensures nested { IfOk result (λ n. IsNested g.now root n) }
    ensures one_entry { OnOk result ((h x : ℕ) → IsAlsoEntered g.now root h x → ⊥) }
    ensures two_entries { (a b : ℕ) → result ≡ Err (faults.TwoEntries a b)
        → IsFirstEntered g.now root a b }
{
    let _nodes = g.nodes();
    let nest = nest(alloc, g, root)?;
    let paths = first_paths(alloc, g, root)?;
    let rooted = Rooted {
        graph: g,
        root,
        paths: &paths,
    };
    let parents = parents(alloc, &rooted, &nest)?;
    let innermost = innermosts(alloc, &rooted, &nest, &parents)?;
    let order = forward_order(alloc, &rooted)?;
    Ok(NestedLoops {
        nest,
        innermost,
        parents,
        order,
    })
}
