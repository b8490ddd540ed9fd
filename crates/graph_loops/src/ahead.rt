ghost use Rattle.std.specs.Prelude.{◌≡◌, ◌+◌, ◌<◌, ℕ, length, slice_index, IfOk, OnOk};
ghost use Rattle.graph_core.specs.Search.{IsSearch};
ghost use Rattle.graph_core.specs.Numbers.{AreCounted};
ghost use Rattle.graph_loops.specs.Nesting.{IsForward};
ghost use Rattle.graph_loops.specs.inside.Ahead.{IsAhead, AreAheadTo, ArePlaced, IsFallingTo};

use crate::around::Rooted;
use graph_core::{Components, Graph, components};
use std::alloc::{AllocError, Global};

/// Adds the edges from a node that the root reaches, but for back edges.
fn add_ahead(rooted: &Rooted, a: u32, ahead: &mut Graph) -> Result<(), AllocError>
    requires search { IsSearch rooted.now.graph.now rooted.now.root rooted.now.paths.now }
    requires a { a < length rooted.now.graph.now }
    requires nodes { length ahead.old ≡ length rooted.now.graph.now }
    requires ahead { AreAheadTo rooted.now.graph.now rooted.now.root a ahead.old }
    ensures nodes { length ahead.new ≡ length ahead.old }
    ensures ahead { OnOk result (AreAheadTo rooted.now.graph.now rooted.now.root (a + 1) ahead.new) }
{
    if !rooted.paths.reaches(a) {
        return Ok(());
    }
    for b in rooted.graph.successors(a) {
        if !rooted.paths.lies_on(*b, a) {
            ahead.add(a, *b)?;
        }
    }
    Ok(())
}

/// The edges of what the root reaches, but for back edges.
fn ahead_of(alloc: Global, rooted: &Rooted) -> Result<Graph, AllocError>
    requires { IsSearch rooted.now.graph.now rooted.now.root rooted.now.paths.now }
    ensures { IfOk result (λ ahead. IsAhead rooted.now.graph.now rooted.now.root ahead) }
{
    let mut ahead = Graph::new(alloc, rooted.graph.nodes())?;
    for a in 0..rooted.graph.nodes() {
        add_ahead(rooted, a, &mut ahead)?;
    }
    Ok(ahead)
}

/// Numbers of nodes, of which no two have one, and the node with each number.
#[derive(Drop)]
struct Ranked {
    numbers: Components,
    places: Vec<u32>,
}

/// The node with each number.
fn ranked_by(alloc: Global, numbers: Components, nodes: u32) -> Result<Ranked, AllocError>
    requires nodes { nodes ≡ length numbers }
    requires distinct { (x y : ℕ) → x < nodes → y < nodes → slice_index numbers x ≡ slice_index numbers y → x ≡ y }
    ensures numbers { IfOk result (λ ranked. ranked.numbers ≡ numbers) }
    ensures counted { IfOk result (λ ranked. AreCounted numbers (length ranked.places.items)) }
    ensures placed { IfOk result (λ ranked. ArePlaced numbers nodes ranked.places.items) }
{
    let mut places = vec![in alloc; 0; numbers.count() as usize]?;
    for x in 0..nodes {
        places[numbers.of(x) as usize] = x;
    }
    Ok(Ranked { numbers, places })
}

/// The nodes that the root reaches, with falling numbers.
fn falling(alloc: Global, rooted: &Rooted, ranked: &Ranked) -> Result<Vec<u32>, AllocError>
    requires search { IsSearch rooted.now.graph.now rooted.now.root rooted.now.paths.now }
    requires root { rooted.now.root < length rooted.now.graph.now }
    requires size { length ranked.now.numbers ≡ length rooted.now.graph.now }
    requires counted { AreCounted ranked.now.numbers (length ranked.now.places.items) }
    requires placed { ArePlaced ranked.now.numbers (length rooted.now.graph.now) ranked.now.places.items }
    ensures { IfOk result (λ order.
        IsFallingTo rooted.now.graph.now rooted.now.root ranked.now.numbers 0 order.items) }
{
    let _nodes = rooted.graph.nodes();
    let mut order = Vec::new(alloc);
    let mut k = ranked.places.len();
    while k > 0 {
        k -= 1;
        let x = ranked.places[k];
        if rooted.paths.reaches(x) {
            order.push(x)?;
        }
    }
    Ok(order)
}

/// The nodes that the root reaches, with falling numbers of components along the edges that are no back edges: each
/// of these components has one node, so that each of these edges goes forward.
pub(crate) fn forward_order(alloc: Global, rooted: &Rooted) -> Result<Vec<u32>, AllocError>
    requires search { IsSearch rooted.now.graph.now rooted.now.root rooted.now.paths.now }
    requires root { rooted.now.root < length rooted.now.graph.now }
    ensures { IfOk result (λ order. IsForward rooted.now.graph.now rooted.now.root order.items) }
{
    let nodes = rooted.graph.nodes();
    let ahead = ahead_of(alloc, rooted)?;
    let numbers = components(alloc, &ahead)?;
    let ranked = ranked_by(alloc, numbers, nodes)?;
    let order = falling(alloc, rooted, &ranked)?;
    Ok(order)
}
