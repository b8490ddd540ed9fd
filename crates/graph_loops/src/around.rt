ghost use Rattle.std.specs.Prelude.{◌≡◌, ◌+◌, ◌<◌, ◌∷◌, ◌++◌, [], ℕ, List, None, length, slice_index_or, IfOk};
ghost use Rattle.graph_core.specs.Search.{IsSearch};
ghost use Rattle.graph_core.specs.Loops.{HasLoop, IsInLoop};
ghost use Rattle.graph_core.specs.Nests.{HasNodes, IsNest};
ghost use Rattle.graph_loops.specs.Nesting.{IsInnermost, IsParent};
ghost use Rattle.graph_loops.specs.inside.Around.{IsAround, AreAround};

use graph_core::loops::{Loop, Nest};
use graph_core::{FirstPaths, Graph};
use std::alloc::{AllocError, Global};

/// A graph with the first paths from a root.
#[derive(Drop)]
pub(crate) struct Rooted<'a> {
    pub(crate) graph: &'a Graph,
    pub(crate) root: u32,
    pub(crate) paths: &'a FirstPaths,
}

/// The loop around a node, now that the loop of `h` is taken into account, which holds the node.
fn nearer(rooted: &Rooted, h: u32, x: u32, around: Option<u32>) -> Option<u32>
    requires search { IsSearch rooted.now.graph.now rooted.now.root rooted.now.paths.now }
    requires begins { HasLoop rooted.now.graph.now rooted.now.root h }
    requires holds { IsInLoop rooted.now.graph.now rooted.now.root h x }
    requires around { (entries : List ℕ) × IsAround rooted.now.graph.now rooted.now.root entries x around }
    ensures { (entries : List ℕ) → IsAround rooted.now.graph.now rooted.now.root entries x around
        → IsAround rooted.now.graph.now rooted.now.root (entries ++ h ∷ []) x result }
{
    let _nodes = rooted.graph.nodes();
    if h == x {
        return around;
    }
    let Some(p) = around else {
        return Some(h);
    };
    if rooted.paths.lies_on(p, h) {
        return Some(h);
    }
    Some(p)
}

/// Takes a loop into account at each of its nodes.
fn add_loop(rooted: &Rooted, l: &Loop, around: &mut Vec<Option<u32>>)
    requires search { IsSearch rooted.now.graph.now rooted.now.root rooted.now.paths.now }
    requires begins { HasLoop rooted.now.graph.now rooted.now.root l.now.entry }
    requires nodes { HasNodes rooted.now.graph.now rooted.now.root l.now }
    requires around { (entries : List ℕ) × AreAround rooted.now.graph.now rooted.now.root entries around.old.items }
    ensures { (entries : List ℕ) → AreAround rooted.now.graph.now rooted.now.root entries around.old.items
        → AreAround rooted.now.graph.now rooted.now.root (entries ++ l.now.entry ∷ []) around.new.items }
{
    let _nodes = rooted.graph.nodes();
    let h = l.entry();
    for x in l.nodes() {
        around[*x as usize] = nearer(rooted, h, *x, around[*x as usize]);
    }
}

/// The parents: for each node the innermost of the loops that hold it and don't begin there.
pub(crate) fn parents(
    alloc: Global,
    rooted: &Rooted,
    nest: &Nest,
) -> Result<Vec<Option<u32>>, AllocError>
    requires search { IsSearch rooted.now.graph.now rooted.now.root rooted.now.paths.now }
    requires nest { IsNest rooted.now.graph.now rooted.now.root nest.now }
    ensures count { IfOk result (λ parents. length parents.items ≡ length rooted.now.graph.now) }
    ensures parents { IfOk result (λ parents. (x : ℕ)
        → IsParent rooted.now.graph.now rooted.now.root x (slice_index_or parents.items x None)) }
{
    let mut around = vec![in alloc; None; rooted.graph.nodes() as usize]?;
    for l in nest.loops() {
        add_loop(rooted, l, &mut around);
    }
    Ok(around)
}

/// The innermost loops: a node at which a loop begins is in it, and another one is where its parent is.
pub(crate) fn innermosts(
    alloc: Global,
    rooted: &Rooted,
    nest: &Nest,
    parents: &[Option<u32>],
) -> Result<Vec<Option<u32>>, AllocError>
    requires nest { IsNest rooted.now.graph.now rooted.now.root nest.now }
    requires count { length parents.now ≡ length rooted.now.graph.now }
    requires parents { (x : ℕ) → IsParent rooted.now.graph.now rooted.now.root x (slice_index_or parents.now x None) }
    ensures count { IfOk result (λ inner. length inner.items ≡ length rooted.now.graph.now) }
    ensures inner { IfOk result (λ inner. (x : ℕ)
        → IsInnermost rooted.now.graph.now rooted.now.root x (slice_index_or inner.items x None)) }
{
    let _nodes = rooted.graph.nodes();
    let mut inner = Vec::new(alloc);
    inner.extend_from_slice(parents)?;
    for l in nest.loops() {
        let h = l.entry();
        inner[h as usize] = Some(h);
    }
    Ok(inner)
}
