ghost use Rattle.std.specs.Prelude.{◌≡◌, length, IfOk};
ghost use Rattle.graph_order.specs.CalleesFirst.{IsCalleeFirst};

use crate::line::{Line, begin, look_at_callers, take};
use crate::parts::parts_of;
use graph_core::Graph;
use std::alloc::{AllocError, Global};

/// The components that have a chosen node, callees first. An edge leads from a caller to its callee. Of the
/// components that are ready, because each other one that they call into stands in the order, the one with the
/// lowest chosen node comes next; it stands there by this node. Components without a chosen node don't stand in
/// the order, and calls go through them. Takes time linear in nodes and edges, but for sorting.
pub fn callees_first(alloc: Global, g: &Graph, chosen: &[bool]) -> Result<Vec<u32>, AllocError>
    requires { length chosen.now ≡ length g.now }
    ensures { IfOk result (λ order. IsCalleeFirst g.now chosen.now order.items) }
{
    let parts = parts_of(alloc, g, chosen)?;
    let mut line = begin(alloc, &parts)?;
    while let Some(x) = take(&parts, &mut line)? {
        look_at_callers(&parts, &mut line, x)?;
    }
    let Line { order, .. } = line;
    Ok(order)
}
