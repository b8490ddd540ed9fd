//! Graphs in the texts of cases, and graphs by the bits of a number.

ghost use Rattle.std.specs.Prelude.{◌≡◌, ◌<◌, length, IfOk};

use case_texts::Case;
use graph_core::Graph;
use std::alloc::{AllocError, Global};

/// The edges that come next, each two nodes with a `-` between. Each node has to be one of so many.
fn edges_of(case: &mut Case<'_>, nodes: u32) -> Vec<(u32, u32)> {
    let mut edges = Vec::new(case.alloc());
    for word in case.rest().split_whitespace() {
        let (a, b) = case.halves(word, "-");
        let (a, b) = (case.parsed(a), case.parsed(b));
        if a < nodes && b < nodes {
            case.add(&mut edges, (a, b));
        } else {
            case.malformed("an edge leads from a node to a node");
        }
    }
    edges
}

/// The graph that comes next: how many nodes there are, a colon, and the edges.
pub(crate) fn graph_of(case: &mut Case<'_>) -> Option<Graph> {
    let nodes = case.until(":");
    let nodes = case.parsed(nodes);
    let edges = edges_of(case, nodes);
    if !edges.iter().all(|e| e.0 < nodes && e.1 < nodes) {
        return None;
    }
    let graph = Graph::from_edges(case.alloc(), nodes, &edges);
    case.made(graph)
}

/// Adds the edges from `a` that the lowest bits stand for, and gives the bits that are left.
fn add_row(g: &mut Graph, a: u32, bits: u64) -> Result<u64, AllocError>
    requires { a < length g.old }
    ensures { length g.new ≡ length g.old }
{
    let mut left = bits;
    for b in 0..g.nodes() {
        if left % 2 == 1 {
            g.add(a, b)?;
        }
        left /= 2;
    }
    Ok(left)
}

/// The graph whose edges are the bits of a number, the first row in the lowest.
pub(crate) fn graph_of_bits(alloc: Global, nodes: u32, bits: u64) -> Result<Graph, AllocError>
    ensures { IfOk result (λ g. length g ≡ nodes) }
{
    let mut g = Graph::new(alloc, nodes)?;
    let mut left = bits;
    for a in 0..nodes {
        left = add_row(&mut g, a, left)?;
    }
    Ok(g)
}
