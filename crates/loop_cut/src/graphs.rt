//! The graph of a method's blocks.

ghost use Rattle.std.specs.Prelude.{◌≡◌, ◌⊎◌, ◌↔◌, ◌<◌, ℕ, All, Contains, length, IfOk, OnOk};
ghost use Rattle.graph_core.specs.Graphs.{HasEdge};
ghost use Rattle.loop_cut.specs.BlockGraph.{IsBlockGraph};

use code_blocks::{Block, code_is_laid_out};
use graph_core::Graph;
use method_body::Body;
use std::alloc::{AllocError, Global};

// Adds the edges from a block to those that can come next.
fn add_edges(graph: &mut Graph, b: &Block) -> Result<(), AllocError>
    requires pc { b.now.pc < length graph.old }
    requires ends { All (λ x. x < length graph.old) b.now.successors }
    ensures nodes { length graph.new ≡ length graph.old }
    ensures added { OnOk result ((x y : ℕ) → HasEdge graph.new x y
        ↔ (HasEdge graph.old x y ⊎ ((x ≡ b.now.pc) × Contains b.now.successors y))) }
{
    for x in b.successors.as_slice() {
        graph.add(b.pc, *x)?;
    }
    Ok(())
}

/// The graph of the method's blocks, whose nodes are the places of the code.
pub(crate) fn block_graph(alloc: Global, body: &Body) -> Result<Graph, AllocError>
    ensures { IfOk result (λ g. IsBlockGraph body.now g) }
{
    body.well_made();
    code_is_laid_out();
    let size = body.code().bytes.len() as u32;
    let mut graph = Graph::new(alloc, size)?;
    for b in body.blocks() {
        add_edges(&mut graph, b)?;
    }
    Ok(graph)
}
