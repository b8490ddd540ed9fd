ghost use Rattle.std.specs.Prelude.{◌≡◌, ◌+◌, ◌<◌, ◌≤◌, All, length, IfOk, OnOk};
ghost use Rattle.graph_core.specs.Numbers.{AreComponents, AreCounted};
ghost use Rattle.graph_order.specs.inside.Parts.{AreJoinsTo, IsCondensed, AreFirstFrom, AreParts};

use graph_core::{Components, Graph, components};
use std::alloc::{AllocError, Global};

/// The components of a graph, and how they call into one another. Each goes by its number.
#[derive(Drop)]
pub(crate) struct Parts<'a> {
    pub(crate) graph: &'a Graph,
    pub(crate) chosen: &'a [bool],
    pub(crate) numbers: Components,
    pub(crate) calls: Graph,
    pub(crate) callers: Graph,
    /// The lowest chosen node of each component.
    pub(crate) firsts: Vec<Option<u32>>,
}

/// Adds the pairs of numbers that are joined by the edges from a node.
fn add_joins(
    g: &Graph,
    numbers: &[u32],
    a: u32,
    edges: &mut Vec<(u32, u32)>,
) -> Result<(), AllocError>
    requires a { a < length g.now }
    requires numbers { length numbers.now ≡ length g.now }
    requires edges { AreJoinsTo g.now numbers.now a edges.old.items }
    ensures { OnOk result (AreJoinsTo g.now numbers.now (a + 1) edges.new.items) }
{
    let x = numbers[a as usize];
    for b in g.successors(a) {
        let y = numbers[*b as usize];
        if x != y {
            edges.push((x, y))?;
        }
    }
    Ok(())
}

/// The pairs of numbers that are joined by edges.
fn joins(alloc: Global, g: &Graph, numbers: &[u32]) -> Result<Vec<(u32, u32)>, AllocError>
    requires { length numbers.now ≡ length g.now }
    ensures { IfOk result (λ edges. AreJoinsTo g.now numbers.now (length g.now) edges.items) }
{
    let mut edges = Vec::new(alloc);
    for a in 0..g.nodes() {
        add_joins(g, numbers, a, &mut edges)?;
    }
    Ok(edges)
}

/// The graph of components.
fn condensed(alloc: Global, g: &Graph, numbers: &Components) -> Result<Graph, AllocError>
    requires { AreComponents g.now numbers.now }
    ensures { IfOk result (λ c. IsCondensed g.now numbers.now c) }
{
    let _nodes = g.nodes();
    let mut edges = joins(alloc, g, numbers.as_slice())?;
    edges.sort_unstable();
    let calls = Graph::from_edges(alloc, numbers.count(), &edges)?;
    Ok(calls)
}

/// Notes a node as the lowest chosen one of its component, if it is chosen, after all higher ones.
fn note_first(numbers: &[u32], chosen: &[bool], v: u32, firsts: &mut Vec<Option<u32>>)
    requires v { v < length numbers.now }
    requires chosen { length chosen.now ≡ length numbers.now }
    requires count { AreCounted numbers.now (length firsts.old.items) }
    requires firsts { AreFirstFrom numbers.now chosen.now (v + 1) firsts.old.items }
    ensures count { length firsts.new.items ≡ length firsts.old.items }
    ensures firsts { AreFirstFrom numbers.now chosen.now v firsts.new.items }
{
    if chosen[v as usize] {
        firsts[numbers[v as usize] as usize] = Some(v);
    }
}

/// The lowest chosen node of each component, by its number.
fn first_chosen(
    alloc: Global,
    numbers: &Components,
    chosen: &[bool],
    nodes: u32,
) -> Result<Vec<Option<u32>>, AllocError>
    requires nodes { nodes ≡ length numbers.now }
    requires chosen { length chosen.now ≡ length numbers.now }
    ensures count { IfOk result (λ firsts. AreCounted numbers.now (length firsts.items)) }
    ensures firsts { IfOk result (λ firsts. AreFirstFrom numbers.now chosen.now 0 firsts.items) }
{
    let count = numbers.count();
    let mut firsts = vec![in alloc; None; count as usize]?;
    let mut v = nodes;
    while v > 0 {
        v -= 1;
        note_first(numbers.as_slice(), chosen, v, &mut firsts);
    }
    Ok(firsts)
}

/// The components of a graph, what joins them, and their lowest chosen nodes.
pub(crate) fn parts_of<'a>(
    alloc: Global,
    graph: &'a Graph,
    chosen: &'a [bool],
) -> Result<Parts<'a>, AllocError>
    requires { length chosen.now ≡ length graph.now }
    ensures { IfOk result (λ parts. (parts.graph.now ≡ graph.entry.now) × (parts.chosen.now ≡ chosen.entry.now)
        × AreParts graph.entry.now chosen.entry.now parts.numbers parts.calls parts.callers parts.firsts.items) }
{
    let nodes = graph.nodes();
    let numbers = components(alloc, graph)?;
    let calls = condensed(alloc, graph, &numbers)?;
    let callers = calls.reversed(alloc)?;
    let firsts = first_chosen(alloc, &numbers, chosen, nodes)?;
    Ok(Parts {
        graph,
        chosen,
        numbers,
        calls,
        callers,
        firsts,
    })
}
