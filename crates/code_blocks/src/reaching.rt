//! What successors lead to.

ghost use Rattle.std.specs.Prelude.{◌≡◌, ◌⊎◌, ◌↔◌, ◌<◌, ℕ, List, All, Contains, length, IfOk, OnOk, IsTrue};
ghost use Rattle.graph_core.specs.Graphs.{HasEdge};
ghost use Rattle.code_blocks.specs.declared.instruction.Instruction.{Instruction as InstructionValue};
ghost use Rattle.code_blocks.specs.Blocks.{AreWithin, IsReached};
ghost use Rattle.code_blocks.specs.inside.Cutting.{HasWay, IsSearched};

use crate::instruction::Instruction;
use graph_core::{FirstPaths, Graph, first_paths};
use std::alloc::{AllocError, Global};

// Adds the edges from an instruction to its successors.
fn add_edges(graph: &mut Graph, i: &Instruction) -> Result<(), AllocError>
    requires pc { i.now.pc < length graph.old }
    requires ends { All (λ x. x < length graph.old) i.now.successors }
    ensures nodes { length graph.new ≡ length graph.old }
    ensures added { OnOk result ((x y : ℕ) → HasEdge graph.new x y
        ↔ (HasEdge graph.old x y ⊎ ((x ≡ i.now.pc) × Contains i.now.successors y))) }
{
    for x in i.successors.as_slice() {
        graph.add(i.pc, *x)?;
    }
    Ok(())
}

// The graph of the places of code, with an edge from each instruction to its successors.
fn graph_of(alloc: Global, size: u32, instructions: &[Instruction]) -> Result<Graph, AllocError>
    requires { AreWithin size instructions.now }
    ensures nodes { IfOk result (λ g. length g ≡ size) }
    ensures edges { IfOk result (λ g. (x y : ℕ) → HasEdge g x y ↔ HasWay instructions.now x y) }
{
    let mut graph = Graph::new(alloc, size)?;
    for i in instructions {
        add_edges(&mut graph, i)?;
    }
    Ok(graph)
}

/// A search through the instructions from the code's beginning.
pub(crate) fn searched(
    alloc: Global,
    size: u32,
    instructions: &[Instruction],
) -> Result<FirstPaths, AllocError>
    requires within { AreWithin size instructions.now }
    requires some { 0 < size }
    ensures { IfOk result (λ paths. IsSearched size instructions.now paths) }
{
    let graph = graph_of(alloc, size, instructions)?;
    first_paths(alloc, &graph, 0)
}

/// Whether successors lead to the place.
pub(crate) fn is_reached(size: u32, paths: &FirstPaths, pc: u32) -> bool
    requires inside { pc < size }
    requires searched { (is : List InstructionValue) × IsSearched size is paths.now }
    ensures { (is : List InstructionValue) → IsSearched size is paths.now → (IsTrue result ↔ IsReached is pc) }
{
    paths.reaches(pc)
}
