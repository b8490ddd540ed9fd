ghost use Rattle.std.specs.Prelude.{◌≡◌, ◌⊎◌, ◌↔◌, ◌<◌, ℕ, Contains, length, slice_index, take, IfOk, IsTrue};
ghost use Rattle.graph_core.specs.Marked.{IsMarked};
ghost use Rattle.graph_core.specs.Paths.{Reaches};
ghost use Rattle.graph_core.specs.Components.{AreTogether};
ghost use Rattle.graph_order.specs.CalleesFirst.{IsLowestChosen, IsReady, IsNext, AreNexts, IsCalleeFirst};
ghost use Rattle.plain_graphs.specs.Plain.{AreLists};

use crate::circling::are_together;
use crate::listing::{Way, all_lists, has, leads_there};
use graph_core::Graph;
use std::alloc::{AllocError, Global};

/// Whether `w` is a chosen node of the component of `v`.
fn is_chosen_with(g: &Graph, lists: &[Way], chosen: &[bool], v: u32, w: u32) -> bool
    requires lists { AreLists (length g.now) lists.now }
    requires chosen { length chosen.now ≡ length g.now }
    requires v { v < length g.now }
    requires w { w < length g.now }
    ensures { IsTrue result ↔ (AreTogether g.now v w × IsMarked chosen.now w) }
{
    if !chosen[w as usize] {
        return false;
    }
    are_together(g, lists, v, w)
}

/// Whether `v` is the lowest chosen node of its component.
fn is_lowest_chosen(g: &Graph, lists: &[Way], chosen: &[bool], v: u32) -> bool
    requires lists { AreLists (length g.now) lists.now }
    requires chosen { length chosen.now ≡ length g.now }
    requires v { v < length g.now }
    ensures { IsTrue result ↔ IsLowestChosen g.now chosen.now v }
{
    if !chosen[v as usize] {
        return false;
    }
    for w in 0..v {
        if is_chosen_with(g, lists, chosen, v, w) {
            return false;
        }
    }
    true
}

/// Whether nothing waits for `w` before `v`: it stands for no component that `v` calls into, or for that of `v`, or is
/// in the order so far.
fn is_before(g: &Graph, lists: &[Way], chosen: &[bool], before: &[u32], v: u32, w: u32) -> bool
    requires lists { AreLists (length g.now) lists.now }
    requires chosen { length chosen.now ≡ length g.now }
    requires v { v < length g.now }
    requires w { w < length g.now }
    ensures { IsTrue result ↔ (IsLowestChosen g.now chosen.now w → Reaches g.now v w
        → (w ≡ v) ⊎ Contains before.now w) }
{
    if !is_lowest_chosen(g, lists, chosen, w) {
        return true;
    }
    if !leads_there(g, lists, v, w) {
        return true;
    }
    if w == v {
        return true;
    }
    has(before, w)
}

/// Whether each other component that `v` calls into is in the order so far.
fn are_before(g: &Graph, lists: &[Way], chosen: &[bool], before: &[u32], v: u32) -> bool
    requires lists { AreLists (length g.now) lists.now }
    requires chosen { length chosen.now ≡ length g.now }
    requires v { v < length g.now }
    ensures { IsTrue result ↔ ((w : ℕ) → IsLowestChosen g.now chosen.now w → Reaches g.now v w
        → (w ≡ v) ⊎ Contains before.now w) }
{
    for w in 0..g.nodes() {
        if !is_before(g, lists, chosen, before, v, w) {
            return false;
        }
    }
    true
}

/// Whether `v` is ready after those before it.
fn is_ready(g: &Graph, lists: &[Way], chosen: &[bool], before: &[u32], v: u32) -> bool
    requires lists { AreLists (length g.now) lists.now }
    requires chosen { length chosen.now ≡ length g.now }
    requires v { v < length g.now }
    ensures { IsTrue result ↔ IsReady g.now chosen.now before.now v }
{
    if !is_lowest_chosen(g, lists, chosen, v) {
        return false;
    }
    if has(before, v) {
        return false;
    }
    are_before(g, lists, chosen, before, v)
}

/// Whether `v` is the lowest of those that are ready.
fn is_next(g: &Graph, lists: &[Way], chosen: &[bool], before: &[u32], v: u32) -> bool
    requires lists { AreLists (length g.now) lists.now }
    requires chosen { length chosen.now ≡ length g.now }
    ensures { IsTrue result ↔ IsNext g.now chosen.now before.now v }
{
    if v >= g.nodes() {
        return false;
    }
    for w in 0..v {
        if is_ready(g, lists, chosen, before, w) {
            return false;
        }
    }
    is_ready(g, lists, chosen, before, v)
}

/// Whether each is the next after those before it.
fn are_nexts(g: &Graph, lists: &[Way], chosen: &[bool], order: &[u32]) -> bool
    requires lists { AreLists (length g.now) lists.now }
    requires chosen { length chosen.now ≡ length g.now }
    ensures { IsTrue result ↔ AreNexts g.now chosen.now order.now }
{
    for i in 0..order.len() {
        if !is_next(g, lists, chosen, &order[..i], order[i]) {
            return false;
        }
    }
    true
}

/// Whether the component of `v` is in the order, if it stands by this node.
fn is_there(g: &Graph, lists: &[Way], chosen: &[bool], order: &[u32], v: u32) -> bool
    requires lists { AreLists (length g.now) lists.now }
    requires chosen { length chosen.now ≡ length g.now }
    requires v { v < length g.now }
    ensures { IsTrue result ↔ (IsLowestChosen g.now chosen.now v → Contains order.now v) }
{
    if !is_lowest_chosen(g, lists, chosen, v) {
        return true;
    }
    has(order, v)
}

/// Whether each component with a chosen node is in the order.
fn has_every(g: &Graph, lists: &[Way], chosen: &[bool], order: &[u32]) -> bool
    requires lists { AreLists (length g.now) lists.now }
    requires chosen { length chosen.now ≡ length g.now }
    ensures { IsTrue result ↔ ((v : ℕ) → IsLowestChosen g.now chosen.now v → Contains order.now v) }
{
    for v in 0..g.nodes() {
        if !is_there(g, lists, chosen, order, v) {
            return false;
        }
    }
    true
}

/// Whether a list is the callee-first order, as `graph_order::callees_first` gives it.
pub fn is_callee_first(
    alloc: Global,
    g: &Graph,
    chosen: &[bool],
    order: &[u32],
) -> Result<bool, AllocError>
    requires { length chosen.now ≡ length g.now }
    ensures { IfOk result (λ told. IsTrue told ↔ IsCalleeFirst g.now chosen.now order.now) }
{
    let lists = all_lists(alloc, g.nodes())?;
    if !are_nexts(g, &lists, chosen, order) {
        return Ok(false);
    }
    Ok(has_every(g, &lists, chosen, order))
}
