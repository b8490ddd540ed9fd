//! Where loops are left.

ghost use Rattle.std.specs.Prelude.{◌≡◌, ◌<◌, ◌++◌, nat_eq, All, flat_map, length, IfOk, OnOk};
ghost use Rattle.std.specs.List.{list_any};
ghost use Rattle.graph_core.specs.Graphs.{IsRising};
ghost use Rattle.code_blocks.specs.Successors.{rising};
ghost use Rattle.loop_cut.specs.inside.Gathered.{leaving, leaving_all, leaving_from};

use class_pool::Sequence;
use code_blocks::rising;
use graph_core::Graph;
use std::alloc::{AllocError, Global};

// Whether the number is one of those in the rising list.
fn holds(nodes: &[u32], x: u32) -> bool
    requires { IsRising nodes.now }
    ensures { result ≡ list_any (nat_eq x) nodes.now }
{
    nodes.binary_search(&x).is_ok()
}

// Adds the node, where it isn't one of these.
fn add_past(nodes: &[u32], x: u32, found: &mut Vec<u32>) -> Result<(), AllocError>
    requires { IsRising nodes.now }
    ensures { OnOk result (found.new.items ≡ found.old.items ++ leaving nodes.now x) }
{
    if !holds(nodes, x) {
        found.push(x)?;
    }
    Ok(())
}

// Adds the nodes past these to which edges lead from one of them.
fn add_leaving(graph: &Graph, nodes: &[u32], a: u32, found: &mut Vec<u32>) -> Result<(), AllocError>
    requires rising { IsRising nodes.now }
    requires node { a < length graph.now }
    ensures { OnOk result (found.new.items ≡ found.old.items ++ leaving_from graph.now nodes.now a) }
{
    for x in graph.successors(a) {
        add_past(nodes, *x, found)?;
    }
    Ok(())
}

/// The nodes past these to which edges lead from one of them, in rising order.
pub(crate) fn exits(
    alloc: Global,
    graph: &Graph,
    nodes: &[u32],
) -> Result<Sequence<u32>, AllocError>
    requires rising { IsRising nodes.now }
    requires nodes { All (λ a. a < length graph.now) nodes.now }
    ensures { IfOk result (λ xs. xs ≡ rising (leaving_all graph.now nodes.now)) }
{
    let mut found = Vec::new(alloc);
    for a in nodes {
        add_leaving(graph, nodes, *a, &mut found)?;
    }
    Ok(rising(found))
}
