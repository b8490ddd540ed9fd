//! The callee-first order and the nesting of loops, judged by programs that go by the definitions.

ghost use Rattle.std.specs.Prelude.{◌≡◌, ◌<◌, length, IfOk};

use graph_core::Graph;
use graph_core::loops::NestFault;
use std::alloc::{AllocError, Global};

/// The nodes that the lowest bits stand for.
fn chosen_by(alloc: Global, nodes: u32, bits: u64) -> Result<Vec<bool>, AllocError>
    ensures { IfOk result (λ chosen. length chosen.items ≡ nodes) }
{
    let mut chosen = vec![in alloc; false; nodes as usize]?;
    let mut left = bits;
    for x in 0..nodes {
        chosen[x as usize] = left % 2 == 1;
        left /= 2;
    }
    Ok(chosen)
}

/// Whether the order of a graph's components is callee-first, where the nodes that some bits stand for are chosen.
pub(crate) fn is_ordered(alloc: Global, g: &Graph, bits: u64) -> Result<bool, AllocError> {
    let chosen = chosen_by(alloc, g.nodes(), bits)?;
    let order = graph_order::callees_first(alloc, g, &chosen)?;
    plain_graphs::is_callee_first(alloc, g, &chosen, &order)
}

/// Whether the innermost loops and the parents are told as they are, where no loop is entered but at its entry.
pub(crate) fn is_nested(alloc: Global, g: &Graph) -> Result<bool, AllocError>
    requires { 0 < length g.now }
{
    match graph_loops::loops(alloc, g, 0) {
        Ok(loops) => plain_graphs::tells_loops(alloc, g, 0, &loops),
        Err(NestFault::TwoEntries { .. }) => Ok(true),
        Err(NestFault::Memory) => Err(AllocError),
    }
}
