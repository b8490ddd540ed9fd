ghost use Rattle.std.specs.Prelude.{◌≡◌, ◌<◌, ◌≤◌, ◌^◌, length, slice_index, IfOk, OnOk, MatchBool};
ghost use Rattle.graph_core.specs.Graphs.{successors_of};
ghost use Rattle.graph_core.specs.Search.{IsSearch, IsSearchTree, node_at};
ghost use Rattle.graph_core.specs.Walk.{IsWalk, looks_left, steps_left};

use crate::graph::Graph;
use crate::tree::FirstPaths;
use std::alloc::{AllocError, Global};

/// A depth first search on its way.
#[derive(Drop)]
struct Walk {
    paths: FirstPaths,
    /// How many successors of each node were looked at.
    nexts: Vec<usize>,
    /// The number of the node at which the search stands.
    here: u32,
}

/// Where a search begins: at the root.
fn begin(alloc: Global, g: &Graph, root: u32) -> Result<Walk, AllocError>
    requires { root < length g.now }
    ensures walk { IfOk result (λ walk. IsWalk g.now walk.paths walk.nexts.items walk.here) }
    ensures root { IfOk result (λ walk. node_at walk.paths 0 ≡ root) }
{
    let nodes = g.nodes();
    let paths = FirstPaths::begin(alloc, nodes, root)?;
    let nexts = vec![in alloc; 0; nodes as usize]?;
    Ok(Walk {
        paths,
        nexts,
        here: 0,
    })
}

/// Looks at the next successor, and goes there unless it was found before.
fn look(g: &Graph, walk: &mut Walk) -> Result<(), AllocError>
    requires walk { IsWalk g.now walk.old.paths walk.old.nexts.items walk.old.here }
    requires more { slice_index walk.old.nexts.items (node_at walk.old.paths walk.old.here)
        < length (successors_of g.now (node_at walk.old.paths walk.old.here)) }
    ensures walk { OnOk result (IsWalk g.now walk.new.paths walk.new.nexts.items walk.new.here) }
    ensures root { OnOk result (node_at walk.new.paths 0 ≡ node_at walk.old.paths 0) }
    ensures falls { OnOk result
        (steps_left g.now walk.new.nexts.items walk.new.here < steps_left g.now walk.old.nexts.items walk.old.here) }
{
    let nodes = g.nodes();
    let node = walk.paths.node(walk.here);
    let next = walk.nexts[node as usize];
    let successor = g.successors(node)[next];
    walk.nexts[node as usize] = next + 1;
    if walk.paths.number(successor).is_some() {
        return Ok(());
    }
    let number = walk.paths.found() as u32;
    walk.paths.find(successor, walk.here)?;
    walk.here = number;
    Ok(())
}

/// A step: a look at the next successor, or back where none is left. Answers whether the search goes
/// on.
fn step(g: &Graph, walk: &mut Walk) -> Result<bool, AllocError>
    requires walk { IsWalk g.now walk.old.paths walk.old.nexts.items walk.old.here }
    ensures walk { IfOk result (λ more. MatchBool more
        (IsWalk g.now walk.new.paths walk.new.nexts.items walk.new.here)
        (IsSearchTree g.now (node_at walk.old.paths 0) walk.new.paths)) }
    ensures root { IfOk result (λ more. node_at walk.new.paths 0 ≡ node_at walk.old.paths 0) }
    ensures falls { IfOk result (λ more. MatchBool more
        (steps_left g.now walk.new.nexts.items walk.new.here < steps_left g.now walk.old.nexts.items walk.old.here)
        (Unit {0})) }
{
    let nodes = g.nodes();
    let node = walk.paths.node(walk.here);
    if walk.nexts[node as usize] < g.successors(node).len() {
        look(g, walk)?;
        return Ok(true);
    }
    walk.paths.leave(walk.here);
    if walk.here == 0 {
        return Ok(false);
    }
    walk.here = walk.paths.parent(walk.here);
    Ok(true)
}

/// The first paths from the root to all that it reaches.
pub fn first_paths(alloc: Global, g: &Graph, root: u32) -> Result<FirstPaths, AllocError>
    requires { root < length g.now }
    ensures { IfOk result (λ paths. IsSearch g.now root paths) }
{
    let mut walk = begin(alloc, g, root)?;
    while step(g, &mut walk)? {}
    let Walk { paths, .. } = walk;
    Ok(paths)
}
