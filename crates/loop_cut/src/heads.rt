//! At which blocks nodes begin.

ghost use Rattle.std.specs.Prelude.{◌≡◌, ◌⊎◌, ◌↔◌, ◌<◌, ◌++◌, ◌∷◌, [], ◌^◌, ℕ, List, All, Contains, length, IfOk, OnOk, IsTrue};
ghost use Rattle.loop_cut.specs.declared.point.Point.{Point as PointValue};
ghost use Rattle.loop_cut.specs.declared.found.CodeLoop.{CodeLoop as CodeLoopValue};
ghost use Rattle.graph_core.specs.Graphs.{IsRising};
ghost use Rattle.graph_core.specs.Marked.{IsMarked};
ghost use Rattle.loop_cut.specs.inside.Arrivals.{AreMet, AreTwo, arrival, arrivals, from_block, from_loop, is_same};

use crate::found::CodeLoop;
use crate::point::Point;
use class_pool::Sequence;
use code_blocks::Block;
use graph_core::Graph;
use graph_loops::NestedLoops;
use std::alloc::{AllocError, Global};

/// A block, by its place, and a point from which the code goes on there.
type Arrival = (u32, Point);

// Whether these are the same.
fn is_same(a: Option<u32>, b: Option<u32>) -> bool
    ensures { result ≡ is_same a b }
{
    match (a, b) {
        (None, None) => true,
        (Some(a), Some(b)) => a == b,
        _ => false,
    }
}

// Adds that the code goes on from the point to a block, where this lies in the region.
fn add_arrival(
    nested: &NestedLoops,
    region: Option<u32>,
    p: Point,
    x: u32,
    came: &mut Vec<Arrival>,
) -> Result<(), AllocError>
    requires { x < length nested.now.innermost }
    ensures { OnOk result (came.new.items ≡ came.old.items ++ arrival nested.now region p x) }
{
    if is_same(region, nested.innermost(x)) {
        came.push((x, p))?;
    }
    Ok(())
}

// Adds where the code goes on from a block, within its region.
fn add_block(
    graph: &Graph,
    nested: &NestedLoops,
    a: u32,
    came: &mut Vec<Arrival>,
) -> Result<(), AllocError>
    requires count { length nested.now.innermost ≡ length graph.now }
    requires node { a < length graph.now }
    ensures { OnOk result (came.new.items ≡ came.old.items ++ from_block graph.now nested.now a) }
{
    let region = nested.innermost(a);
    for x in graph.successors(a) {
        add_arrival(nested, region, Point::Block(a), *x, came)?;
    }
    Ok(())
}

// Adds where the code goes on from a loop, within the region around it.
fn add_loop(nested: &NestedLoops, l: &CodeLoop, came: &mut Vec<Arrival>) -> Result<(), AllocError>
    requires entry { l.now.entry < length nested.now.parents }
    requires exits { All (λ x. x < length nested.now.innermost) l.now.exits }
    ensures { OnOk result (came.new.items ≡ came.old.items ++ from_loop nested.now l.now) }
{
    let region = nested.parent(l.entry);
    for x in l.exits.as_slice() {
        add_arrival(nested, region, Point::Loop(l.entry), *x, came)?;
    }
    Ok(())
}

/// What comes to each block within the region around it, once for each edge of a block and each exit of a loop.
pub(crate) fn arrivals(
    alloc: Global,
    graph: &Graph,
    nested: &NestedLoops,
    blocks: &[Block],
    loops: &[CodeLoop],
) -> Result<Vec<Arrival>, AllocError>
    requires inner { length nested.now.innermost ≡ length graph.now }
    requires outer { length nested.now.parents ≡ length graph.now }
    requires blocks { All (λ b. b.pc < length graph.now) blocks.now }
    requires entries { All (λ l. l.entry < length graph.now) loops.now }
    requires exits { All (λ l. All (λ x. x < length graph.now) l.exits) loops.now }
    ensures { IfOk result (λ came. came.items ≡ arrivals graph.now nested.now blocks.now loops.now) }
{
    let mut came = Vec::new(alloc);
    for b in blocks {
        add_block(graph, nested, b.pc, &mut came)?;
    }
    for l in loops {
        add_loop(nested, l, &mut came)?;
    }
    Ok(came)
}

/// A point that came to each block, and where two did.
#[derive(Drop)]
pub(crate) struct Met {
    firsts: Vec<Option<Point>>,
    joins: Vec<bool>,
}

// Whether these are one point.
fn is_same_point(p: Point, q: Point) -> bool
    ensures { IsTrue result ↔ (p ≡ q) }
{
    p == q
}

// One arrival more.
fn meet(met: &mut Met, x: u32, p: Point)
    requires first { x < length met.old.firsts.items }
    requires join { x < length met.old.joins.items }
    ensures { (came : List (ℕ × PointValue)) (size : ℕ) → AreMet came size met.old.firsts.items met.old.joins.items
        → AreMet (came ++ (x, p) ∷ []) size met.new.firsts.items met.new.joins.items }
{
    match met.firsts[x as usize] {
        None => met.firsts[x as usize] = Some(p),
        Some(q) => {
            if is_same_point(q, p) {
                return;
            }
            met.joins[x as usize] = true;
        }
    }
}

// Marks the blocks to which the code goes on from two points.
fn joins(alloc: Global, size: u32, came: &[Arrival]) -> Result<Vec<bool>, AllocError>
    requires { All (λ c. c.0 < size) came.now }
    ensures count { IfOk result (λ joins. length joins.items ≡ size) }
    ensures joins { IfOk result (λ joins. (x : ℕ) → x < size → IsMarked joins.items x ↔ AreTwo came.now x) }
{
    let mut met = Met {
        firsts: vec![in alloc; None; size as usize]?,
        joins: vec![in alloc; false; size as usize]?,
    };
    for (x, p) in came {
        meet(&mut met, *x, *p);
    }
    Ok(met.joins)
}

// Marks the entries of loops.
fn mark_entries(marks: &mut Vec<bool>, loops: &[CodeLoop])
    requires { All (λ l. l.entry < length marks.old.items) loops.now }
    ensures count { length marks.new.items ≡ length marks.old.items }
    ensures marked { (x : ℕ) → IsMarked marks.new.items x ↔ (IsMarked marks.old.items x ⊎ ((l : CodeLoopValue) × Contains loops.now l × (l.entry ≡ x))) }
{
    for l in loops {
        marks[l.entry as usize] = true;
    }
}

// The marked places in rising order.
fn marked(alloc: Global, marks: &[bool]) -> Result<Sequence<u32>, AllocError>
    requires { length marks.now < 2 ^ 32 }
    ensures rising { IfOk result (λ xs. IsRising xs) }
    ensures all { IfOk result (λ xs. (x : ℕ) → Contains xs x ↔ IsMarked marks.now x) }
{
    let mut found = Vec::new(alloc);
    for x in 0..marks.len() {
        if marks[x] {
            found.push(x as u32)?;
        }
    }
    Ok(Sequence::from(found))
}

/// The blocks at which nodes begin, in rising order: the start, the entries of loops, and the blocks that are come to
/// from two points.
pub(crate) fn heads(
    alloc: Global,
    size: u32,
    loops: &[CodeLoop],
    came: &[Arrival],
) -> Result<Sequence<u32>, AllocError>
    requires some { 0 < size }
    requires came { All (λ c. c.0 < size) came.now }
    requires entries { All (λ l. l.entry < size) loops.now }
    ensures rising { IfOk result (λ xs. IsRising xs) }
    ensures heads { IfOk result (λ xs. (x : ℕ) → Contains xs x ↔ ((x < size)
        × ((x ≡ 0) ⊎ (((l : CodeLoopValue) × Contains loops.now l × (l.entry ≡ x)) ⊎ AreTwo came.now x)))) }
{
    let mut marks = joins(alloc, size, came)?;
    marks[0] = true;
    mark_entries(&mut marks, loops);
    let heads = marked(alloc, marks.as_slice())?;
    Ok(heads)
}
