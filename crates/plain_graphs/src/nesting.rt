ghost use Rattle.std.specs.Prelude.{◌≡◌, ◌≢◌, ◌↔◌, ◌<◌, ℕ, Some, None, length, slice_index_or, IfOk, IsTrue};
ghost use Rattle.graph_core.specs.Loops.{IsInLoop};
ghost use Rattle.graph_loops.specs.Nesting.{Holds, LiesWithin, IsInnermost, IsParent};
ghost use Rattle.plain_graphs.specs.Plain.{ArePlain};
ghost use Rattle.plain_graphs.specs.Nearest.{IsNearest};

use crate::looping::has_loop;
use crate::trunks::{Plain, is_inside, make_plain};
use graph_core::Graph;
use graph_loops::NestedLoops;
use std::alloc::{AllocError, Global};

/// Whether a loop begins at `h` and holds `x`.
fn holds(p: &Plain, h: u32, x: u32) -> bool
    requires plain { ArePlain p.now.graph.now p.now.root p.now.lists.items p.now.trunks.items }
    requires x { x < length p.now.graph.now }
    ensures { IsTrue result ↔ Holds p.now.graph.now p.now.root h x }
{
    if !has_loop(p, h) {
        return false;
    }
    is_inside(p, h, x)
}

/// Whether a node is in the loop of `k`, where it is in that of `h`.
fn is_also_inside(p: &Plain, h: u32, k: u32, x: u32) -> bool
    requires plain { ArePlain p.now.graph.now p.now.root p.now.lists.items p.now.trunks.items }
    requires x { x < length p.now.graph.now }
    ensures { IsTrue result
        ↔ (IsInLoop p.now.graph.now p.now.root h x → IsInLoop p.now.graph.now p.now.root k x) }
{
    if !is_inside(p, h, x) {
        return true;
    }
    is_inside(p, k, x)
}

/// Whether the loop of `h` lies in that of `k`.
fn lies_within(p: &Plain, h: u32, k: u32) -> bool
    requires plain { ArePlain p.now.graph.now p.now.root p.now.lists.items p.now.trunks.items }
    requires h { h < length p.now.graph.now }
    ensures { IsTrue result ↔ LiesWithin p.now.graph.now p.now.root h k }
{
    for x in 0..p.graph.nodes() {
        if !is_also_inside(p, h, k, x) {
            return false;
        }
    }
    true
}

/// Whether the loop of `h` lies in that of `k`, where this holds `x` and doesn't begin at `e`.
fn is_in_other(p: &Plain, x: u32, e: u32, h: u32, k: u32) -> bool
    requires plain { ArePlain p.now.graph.now p.now.root p.now.lists.items p.now.trunks.items }
    requires x { x < length p.now.graph.now }
    requires h { h < length p.now.graph.now }
    ensures { IsTrue result ↔ (Holds p.now.graph.now p.now.root k x → k ≢ e
        → LiesWithin p.now.graph.now p.now.root h k) }
{
    if !holds(p, k, x) {
        return true;
    }
    if k == e {
        return true;
    }
    lies_within(p, h, k)
}

/// Whether the loop of `h` lies in each that holds `x` and doesn't begin at `e`.
fn is_in_others(p: &Plain, x: u32, e: u32, h: u32) -> bool
    requires plain { ArePlain p.now.graph.now p.now.root p.now.lists.items p.now.trunks.items }
    requires x { x < length p.now.graph.now }
    requires h { h < length p.now.graph.now }
    ensures { IsTrue result ↔ ((k : ℕ) → Holds p.now.graph.now p.now.root k x → k ≢ e
        → LiesWithin p.now.graph.now p.now.root h k) }
{
    for k in 0..p.graph.nodes() {
        if !is_in_other(p, x, e, h, k) {
            return false;
        }
    }
    true
}

/// Whether the loop of `h` is the innermost of those that hold `x` and don't begin at `e`.
fn is_nearest_at(p: &Plain, x: u32, e: u32, h: u32) -> bool
    requires plain { ArePlain p.now.graph.now p.now.root p.now.lists.items p.now.trunks.items }
    requires x { x < length p.now.graph.now }
    ensures { IsTrue result ↔ IsNearest p.now.graph.now p.now.root x e (Some h) }
{
    if h >= p.graph.nodes() {
        return false;
    }
    if h == e {
        return false;
    }
    if !holds(p, h, x) {
        return false;
    }
    is_in_others(p, x, e, h)
}

/// Whether the loop of `h` doesn't hold `x`, or begins at `e`.
fn is_alone(p: &Plain, x: u32, e: u32, h: u32) -> bool
    requires plain { ArePlain p.now.graph.now p.now.root p.now.lists.items p.now.trunks.items }
    requires x { x < length p.now.graph.now }
    ensures { IsTrue result ↔ (Holds p.now.graph.now p.now.root h x → h ≡ e) }
{
    if !holds(p, h, x) {
        return true;
    }
    h == e
}

/// Whether no loop holds `x` but one that begins at `e`.
fn has_none(p: &Plain, x: u32, e: u32) -> bool
    requires plain { ArePlain p.now.graph.now p.now.root p.now.lists.items p.now.trunks.items }
    requires x { x < length p.now.graph.now }
    ensures { IsTrue result ↔ IsNearest p.now.graph.now p.now.root x e None }
{
    for h in 0..p.graph.nodes() {
        if !is_alone(p, x, e, h) {
            return false;
        }
    }
    true
}

/// Whether this is the innermost of the loops that hold `x` and don't begin at `e`.
fn is_nearest(p: &Plain, x: u32, e: u32, told: Option<u32>) -> bool
    requires plain { ArePlain p.now.graph.now p.now.root p.now.lists.items p.now.trunks.items }
    requires x { x < length p.now.graph.now }
    ensures { IsTrue result ↔ IsNearest p.now.graph.now p.now.root x e told }
{
    match told {
        None => has_none(p, x, e),
        Some(h) => is_nearest_at(p, x, e, h),
    }
}

/// Whether the innermost loop and the parent are told of a node.
fn is_told(p: &Plain, n: &NestedLoops, x: u32) -> bool
    requires plain { ArePlain p.now.graph.now p.now.root p.now.lists.items p.now.trunks.items }
    requires innermost { length n.now.innermost ≡ length p.now.graph.now }
    requires parents { length n.now.parents ≡ length p.now.graph.now }
    requires x { x < length p.now.graph.now }
    ensures { IsTrue result ↔ (IsInnermost p.now.graph.now p.now.root x (slice_index_or n.now.innermost x None)
        × IsParent p.now.graph.now p.now.root x (slice_index_or n.now.parents x None)) }
{
    if !is_nearest(p, x, p.graph.nodes(), n.innermost(x)) {
        return false;
    }
    is_nearest(p, x, x, n.parent(x))
}

/// Whether they are told of each node.
fn are_told(p: &Plain, n: &NestedLoops) -> bool
    requires plain { ArePlain p.now.graph.now p.now.root p.now.lists.items p.now.trunks.items }
    requires innermost { length n.now.innermost ≡ length p.now.graph.now }
    requires parents { length n.now.parents ≡ length p.now.graph.now }
    ensures { IsTrue result ↔ ((x : ℕ) → x < length p.now.graph.now
        → IsInnermost p.now.graph.now p.now.root x (slice_index_or n.now.innermost x None)
        × IsParent p.now.graph.now p.now.root x (slice_index_or n.now.parents x None)) }
{
    for x in 0..p.graph.nodes() {
        if !is_told(p, n, x) {
            return false;
        }
    }
    true
}

/// Whether the innermost loop and the parent of each node are those that `graph_loops::loops` tells.
pub fn tells_loops(alloc: Global, g: &Graph, root: u32, n: &NestedLoops) -> Result<bool, AllocError>
    requires root { root < length g.now }
    requires innermost { length n.now.innermost ≡ length g.now }
    requires parents { length n.now.parents ≡ length g.now }
    ensures { IfOk result (λ told. IsTrue told ↔ ((x : ℕ) → x < length g.now
        → IsInnermost g.now root x (slice_index_or n.now.innermost x None)
        × IsParent g.now root x (slice_index_or n.now.parents x None))) }
{
    let p = make_plain(alloc, g, root)?;
    Ok(are_told(&p, n))
}
