//! The loops of a method's code.

ghost use Rattle.std.specs.Prelude.{◌≡◌, ◌<◌, ◌↔◌, ℕ, List, All, Contains, Err, length, map, IfOk};
ghost use Rattle.graph_core.specs.Loops.{HasLoop};
ghost use Rattle.graph_core.specs.Nests.{HasNodes};
ghost use Rattle.graph_core.specs.Graphs.{IsRising};
ghost use Rattle.graph_loops.specs.Nesting.{IsNested};
ghost use Rattle.loop_cut.specs.declared.found.CutFault.TheVariants as faults;
ghost use Rattle.loop_cut.specs.BlockGraph.{IsBlockGraph};
ghost use Rattle.loop_cut.specs.CodeLoops.{AreLoops, IsCut, IsIrreducible, entered_of};
ghost use Rattle.loop_cut.specs.Regions.{IsHead};
ghost use Rattle.loop_cut.specs.inside.Gathered.{ExitsAre, IsSurvey, or_zero};

use crate::bodies::{changed, floors, least_at, numbers};
use crate::found::{CodeLoop, CutFault, Loops};
use crate::graphs::block_graph;
use crate::heads::{arrivals, heads};
use crate::leaving::exits;
use class_pool::Sequence;
use code_blocks::code_is_laid_out;
use graph_core::Graph;
use graph_core::loops::Loop;
use graph_loops::{NestedLoops, loops};
use method_body::Body;
use std::alloc::{AllocError, Global};

/// What is known of a method's code: the number of the block at each place, and the height inside each instruction.
#[derive(Drop)]
struct Survey {
    numbers: Vec<usize>,
    floors: Vec<u32>,
}

fn survey_of(alloc: Global, body: &Body, heights: &[u32]) -> Result<Survey, AllocError>
    requires heights { length heights.now ≡ length body.now.instructions }
    ensures { IfOk result (λ s. IsSurvey body.now heights.now s.numbers.items s.floors.items) }
{
    body.well_made();
    code_is_laid_out();
    let size = body.code().bytes.len() as u32;
    Ok(Survey {
        numbers: numbers(alloc, size, body.blocks())?,
        floors: floors(alloc, &body.class().pool, body.instructions(), heights)?,
    })
}

// The number, or 0 where there is none.
fn or_zero(n: Option<u32>) -> u32
    ensures { result ≡ or_zero n }
{
    match n {
        Some(n) => n,
        None => 0,
    }
}

// A loop, with where it is left and what it changes.
fn code_loop(
    alloc: Global,
    body: &Body,
    graph: &Graph,
    survey: &Survey,
    l: &Loop,
) -> Result<CodeLoop, AllocError>
    requires graph { IsBlockGraph body.now graph.now }
    requires begins { HasLoop graph.now 0 l.now.entry }
    requires nodes { HasNodes graph.now 0 l.now }
    requires survey { (heights : List ℕ) × IsSurvey body.now heights survey.now.numbers.items survey.now.floors.items }
    ensures same { IfOk result (λ c. entered_of c ≡ l.now) }
    ensures cut { IfOk result (λ c. (heights : List ℕ) → IsSurvey body.now heights survey.now.numbers.items survey.now.floors.items
        → IsCut body.now heights graph.now c) }
{
    body.well_made();
    let _nodes = graph.nodes();
    let nodes = l.nodes();
    let blocks = body.blocks();
    let least = least_at(&survey.floors, blocks, &survey.numbers, nodes);
    let held = Vec::from_slice(alloc, nodes)?;
    let exits = exits(alloc, graph, nodes)?;
    let changed = changed(alloc, body.instructions(), blocks, &survey.numbers, nodes)?;
    Ok(CodeLoop {
        entry: l.entry(),
        blocks: Sequence::from(held),
        exits,
        changed,
        least_height: or_zero(least),
    })
}

// The loops, in the order of their entries.
fn code_loops(
    alloc: Global,
    body: &Body,
    graph: &Graph,
    survey: &Survey,
    nested: &NestedLoops,
) -> Result<Sequence<CodeLoop>, AllocError>
    requires graph { IsBlockGraph body.now graph.now }
    requires nested { IsNested graph.now 0 nested.now }
    requires survey { (heights : List ℕ) × IsSurvey body.now heights survey.now.numbers.items survey.now.floors.items }
    ensures same { IfOk result (λ ls. map entered_of ls ≡ nested.now.loops) }
    ensures each { IfOk result (λ ls. (heights : List ℕ) → IsSurvey body.now heights survey.now.numbers.items survey.now.floors.items
        → All (IsCut body.now heights graph.now) ls) }
{
    let mut found = Sequence::new(alloc);
    for l in nested.loops() {
        found.push(code_loop(alloc, body, graph, survey, l)?)?;
    }
    Ok(found)
}

// The blocks at which nodes begin.
fn heads_of(
    alloc: Global,
    body: &Body,
    graph: &Graph,
    nested: &NestedLoops,
    loops: &[CodeLoop],
) -> Result<Sequence<u32>, AllocError>
    requires graph { IsBlockGraph body.now graph.now }
    requires nested { IsNested graph.now 0 nested.now }
    requires same { map entered_of loops.now ≡ nested.now.loops }
    requires exits { All (λ l. ExitsAre graph.now l) loops.now }
    ensures rising { IfOk result (λ xs. IsRising xs) }
    ensures heads { IfOk result (λ xs. (x : ℕ) → Contains xs x ↔ IsHead graph.now 0 x) }
{
    body.well_made();
    code_is_laid_out();
    let size = graph.nodes();
    let came = arrivals(alloc, graph, nested, body.blocks(), loops)?;
    let found = heads(alloc, size, loops, came.as_slice())?;
    Ok(found)
}

/// The loops of a method's code, where each is entered at one block alone: what they hold, where they are left, which locals
/// they change, how low the operand stack comes in them, how they lie in one another, and at which blocks nodes begin.
/// Heights are those of the operand stack before each instruction, in words.
///
/// # Errors
///
/// `Irreducible { a, b }` where a loop is also entered at another block than its entry: `a` is the lowest entry of such a
/// loop, and `b` the lowest other block at which that is entered. `Memory` where memory runs out.
pub fn cut(alloc: Global, body: &Body, heights: &[u32]) -> Result<Loops, CutFault>
    requires { length heights.now ≡ length body.now.instructions }
    ensures loops { IfOk result (λ ls. AreLoops body.now heights.now ls) }
    ensures irreducible { (a b : ℕ) → result ≡ Err (faults.Irreducible a b) → IsIrreducible body.now a b }
{
    body.well_made();
    let graph = block_graph(alloc, body)?;
    let nested = loops(alloc, &graph, 0)?;
    let survey = survey_of(alloc, body, heights)?;
    let found = code_loops(alloc, body, &graph, &survey, &nested)?;
    let heads = heads_of(alloc, body, &graph, &nested, found.as_slice())?;
    Ok(Loops {
        graph,
        nested,
        loops: found,
        heads,
    })
}
