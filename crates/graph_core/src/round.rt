ghost use Rattle.std.specs.Prelude.{◌≡◌, ◌<◌, ◌≤◌, ◌++◌, ◌∷◌, [], ℕ, List, length, slice_index, IfOk, OnOk};
ghost use Rattle.graph_core.specs.Graphs.{successors_of};
ghost use Rattle.graph_core.specs.Paths.{Reaches};
ghost use Rattle.graph_core.specs.Marked.{IsMarked};
ghost use Rattle.graph_core.specs.Leaving.{IsRound, IsEntered, IsMoreFrom, IsReaching, IsLeaving, round_left};

use crate::graph::Graph;
use std::alloc::{AllocError, Global};

/// A depth first walk of a whole graph on its way.
#[derive(Drop)]
pub(crate) struct Round {
    pub(crate) found: Vec<bool>,
    /// How many successors of each node were looked at.
    pub(crate) nexts: Vec<usize>,
    /// The nodes that aren't left so far, each found from the one before it.
    pub(crate) stack: Vec<u32>,
    /// The nodes in the order in which they were left.
    pub(crate) order: Vec<u32>,
}

/// Where a walk begins: nothing is found.
pub(crate) fn begin(alloc: Global, g: &Graph) -> Result<Round, AllocError>
    ensures round { IfOk result
        (λ round. IsRound g.now round.found.items round.nexts.items round.stack.items round.order.items) }
    ensures rest { IfOk result (λ round. round.stack.items ≡ []) }
    ensures none { IfOk result (λ round. round.order.items ≡ []) }
{
    let nodes = g.nodes() as usize;
    let found = vec![in alloc; false; nodes]?;
    let nexts = vec![in alloc; 0; nodes]?;
    Ok(Round {
        found,
        nexts,
        stack: Vec::new(alloc),
        order: Vec::new(alloc),
    })
}

/// Puts a node on the stack, unless it was found before.
fn enter(round: &mut Round, s: u32) -> Result<(), AllocError>
    requires { s < length round.old.found.items }
    ensures entered { OnOk result
        (IsEntered round.old.found.items round.old.stack.items s round.new.found.items round.new.stack.items) }
    ensures nexts { OnOk result (round.new.nexts.items ≡ round.old.nexts.items) }
    ensures order { OnOk result (round.new.order.items ≡ round.old.order.items) }
{
    if round.found[s as usize] {
        return Ok(());
    }
    round.stack.push(s)?;
    round.found[s as usize] = true;
    Ok(())
}

/// Looks at the next successor of the node on top, which is put on the stack unless it was found before.
fn look(g: &Graph, round: &mut Round, v: u32, next: usize) -> Result<(), AllocError>
    requires round { IsRound g.now round.old.found.items round.old.nexts.items round.old.stack.items round.old.order.items }
    requires v { v < length g.now }
    requires top { (below : List ℕ) × (round.old.stack.items ≡ below ++ v ∷ []) }
    requires next { next ≡ slice_index round.old.nexts.items v }
    requires more { next < length (successors_of g.now v) }
    ensures round { OnOk result
        (IsRound g.now round.new.found.items round.new.nexts.items round.new.stack.items round.new.order.items) }
    ensures reaching { OnOk result ((root : ℕ) → IsReaching g.now root round.old.stack.items
        → IsReaching g.now root round.new.stack.items) }
    ensures kept { OnOk result ((x : ℕ) → IsMarked round.old.found.items x → IsMarked round.new.found.items x) }
    ensures order { OnOk result (round.new.order.items ≡ round.old.order.items) }
    ensures falls { OnOk result (round_left g.now round.new.nexts.items round.new.stack.items
        < round_left g.now round.old.nexts.items round.old.stack.items) }
{
    let s = g.successors(v)[next];
    enter(round, s)?;
    round.nexts[v as usize] = next + 1;
    Ok(())
}

/// A step: a look at the next successor of the node on top, or it is left where none is left.
fn step(g: &Graph, round: &mut Round) -> Result<(), AllocError>
    requires round { IsRound g.now round.old.found.items round.old.nexts.items round.old.stack.items round.old.order.items }
    requires some { 0 < length round.old.stack.items }
    ensures round { OnOk result
        (IsRound g.now round.new.found.items round.new.nexts.items round.new.stack.items round.new.order.items) }
    ensures more { OnOk result ((root : ℕ) → IsReaching g.now root round.old.stack.items
        → IsReaching g.now root round.new.stack.items × IsMoreFrom g.now root round.old.order.items round.new.order.items) }
    ensures kept { OnOk result ((x : ℕ) → IsMarked round.old.found.items x → IsMarked round.new.found.items x) }
    ensures falls { OnOk result (round_left g.now round.new.nexts.items round.new.stack.items
        < round_left g.now round.old.nexts.items round.old.stack.items) }
{
    let Some(v) = round.stack.pop() else {
        return Ok(());
    };
    let next = round.nexts[v as usize];
    if next >= g.successors(v).len() {
        round.order.push(v)?;
        return Ok(());
    }
    round.stack.push(v)?;
    look(g, round, v, next)?;
    Ok(())
}

/// Walks on from a node, unless it was found before, until it is left.
pub(crate) fn walk_from(g: &Graph, round: &mut Round, root: u32) -> Result<(), AllocError>
    requires round { IsRound g.now round.old.found.items round.old.nexts.items round.old.stack.items round.old.order.items }
    requires rest { round.old.stack.items ≡ [] }
    requires root { root < length g.now }
    ensures round { OnOk result
        (IsRound g.now round.new.found.items round.new.nexts.items round.new.stack.items round.new.order.items) }
    ensures rest { OnOk result (round.new.stack.items ≡ []) }
    ensures more { OnOk result (IsMoreFrom g.now root round.old.order.items round.new.order.items) }
    ensures root { OnOk result (IsMarked round.new.found.items root) }
    ensures kept { OnOk result ((x : ℕ) → IsMarked round.old.found.items x → IsMarked round.new.found.items x) }
{
    enter(round, root)?;
    while !round.stack.is_empty() {
        step(g, round)?;
    }
    Ok(())
}

/// All nodes, in an order in which a depth first walk leaves them.
pub(crate) fn leaving(alloc: Global, g: &Graph) -> Result<Vec<u32>, AllocError>
    ensures { IfOk result (λ order. IsLeaving g.now order.items) }
{
    let mut round = begin(alloc, g)?;
    for root in 0..g.nodes() {
        walk_from(g, &mut round, root)?;
    }
    let Round { order, .. } = round;
    Ok(order)
}
