//! The quick calls on graphs, compared with those that look through all lists of nodes.

ghost use Rattle.std.specs.Prelude.{◌<◌, length};
ghost use Rattle.graph_core.specs.Search.{IsSearch};

use crate::judging::{is_nested, is_ordered};
use crate::reading::graph_of_bits;
use crate::telling::{covers, put_cover_fault, put_nest, put_numbers};
use case_texts::Case;
use graph_core::{FirstPaths, Graph, first_paths};
use std::alloc::{AllocError, Global};

/// The next number of a linear congruential generator, that of Knuth's MMIX.
fn next(number: u64) -> u64 {
    number
        .wrapping_mul(6_364_136_223_846_793_005)
        .wrapping_add(1_442_695_040_888_963_407)
}

/// Edges by chance, of four about one.
fn some_edges(number: u64) -> u64 {
    (number >> 20) & (next(number) >> 20)
}

/// Whether the answers are the same.
fn are_same(one: Case<'_>, other: Case<'_>) -> bool {
    match (one.end(), other.end()) {
        (Ok(one), Ok(other)) => one.as_str() == other.as_str(),
        _ => false,
    }
}

/// Whether both tell the same loops of a graph.
fn same_nest(alloc: Global, g: &Graph) -> bool
    requires { 0 < length g.now }
{
    let mut quick = Case::new(alloc, "", "");
    put_nest(&mut quick, graph_core::nest(alloc, g, 0));
    let mut plain = Case::new(alloc, "", "");
    put_nest(&mut plain, plain_graphs::nest(alloc, g, 0));
    are_same(quick, plain)
}

fn put_plain_covers(plain: &mut Case<'_>, g: &Graph) {
    match plain_graphs::covers(plain.alloc(), g) {
        Ok(nodes) => put_numbers(plain, &nodes),
        Err(fault) => put_cover_fault(plain, fault),
    }
}

/// Whether both tell the same covers of a graph.
fn same_covers(alloc: Global, g: &Graph) -> bool {
    let mut quick = Case::new(alloc, "", "");
    covers(&mut quick, g);
    let mut plain = Case::new(alloc, "", "");
    put_plain_covers(&mut plain, g);
    are_same(quick, plain)
}

/// Whether the first path to `x` goes through the nodes that are told to lie on it.
fn same_path(alloc: Global, g: &Graph, paths: &FirstPaths, x: u32) -> Result<bool, AllocError>
    requires root { 0 < length g.now }
    requires paths { IsSearch g.now 0 paths.now }
    requires x { x < length g.now }
{
    let Some(path) = plain_graphs::first_path(alloc, g, 0, x)? else {
        return Ok(!paths.reaches(x));
    };
    for h in 1..g.nodes() {
        if paths.lies_on(h, x) != path.contains(&h) {
            return Ok(false);
        }
    }
    Ok(true)
}

/// Whether both tell the same first paths from 0.
fn same_paths(alloc: Global, g: &Graph) -> Result<bool, AllocError>
    requires { 0 < length g.now }
{
    let paths = first_paths(alloc, g, 0)?;
    for x in 0..g.nodes() {
        if !same_path(alloc, g, &paths, x)? {
            return Ok(false);
        }
    }
    Ok(true)
}

/// Whether first paths, the order of components, of which some bits choose nodes, and how loops lie in one another are
/// told as the definitions have it.
fn is_as_defined(alloc: Global, g: &Graph, bits: u64) -> Result<bool, AllocError>
    requires { 0 < length g.now }
{
    Ok(same_paths(alloc, g)? && is_ordered(alloc, g, bits)? && is_nested(alloc, g)?)
}

/// Whether both tell the same of a graph, and all else of it is told as defined, where that is asked.
fn is_same(alloc: Global, g: &Graph, bits: u64, whole: bool) -> bool
    requires { 0 < length g.now }
{
    let is_defined = !whole || is_as_defined(alloc, g, bits).unwrap_or(false);
    is_defined && same_nest(alloc, g) && same_covers(alloc, g)
}

/// Whether other things are told of the graph of these bits.
fn differs(alloc: Global, nodes: u32, bits: u64, whole: bool) -> bool
    requires { 0 < nodes }
{
    match graph_of_bits(alloc, nodes, bits) {
        Ok(g) => !is_same(alloc, &g, next(bits) >> 20, whole),
        Err(_) => true,
    }
}

/// Of how many of all graphs of so many nodes other loops or covers are told; of fewer than four nodes all is compared.
fn count_all(alloc: Global, nodes: u32, graphs: u64) -> u64
    requires { 0 < nodes }
{
    let mut differ = 0u64;
    for bits in 0..graphs {
        if differs(alloc, nodes, bits, nodes < 4) {
            differ = differ.wrapping_add(1);
        }
    }
    differ
}

/// Of how many graphs with edges by chance other things are told.
fn count_by_chance(alloc: Global, nodes: u32, graphs: u64) -> u64
    requires { 0 < nodes }
{
    let mut differ = 0u64;
    let mut number = 1;
    for _ in 0..graphs {
        number = next(next(number));
        if differs(alloc, nodes, some_edges(number), true) {
            differ = differ.wrapping_add(1);
        }
    }
    differ
}

fn put_counts(case: &mut Case<'_>, nodes: u32, graphs: u64, differ: u64) {
    case.show(&differ);
    case.put(" of ");
    case.show(&graphs);
    case.put(" with ");
    case.show(&nodes);
    case.put(" nodes differ");
}

/// Compares on all graphs of so many nodes.
fn compare_all(case: &mut Case<'_>) {
    let nodes: u32 = case.number();
    if nodes == 0 || nodes > 4 {
        case.malformed("at most four nodes");
        return;
    }
    let graphs = 1 << (nodes * nodes);
    let differ = count_all(case.alloc(), nodes, graphs);
    put_counts(case, nodes, graphs, differ);
}

/// Compares on so many graphs of so many nodes.
fn compare_some(case: &mut Case<'_>, nodes: u32)
    requires { 0 < nodes }
{
    let graphs = case.number();
    let differ = count_by_chance(case.alloc(), nodes, graphs);
    put_counts(case, nodes, graphs, differ);
}

/// Compares on all graphs of so many nodes (at most four), or on so many of some larger ones.
pub(crate) fn compare(case: &mut Case<'_>) {
    match case.word() {
        "all" => compare_all(case),
        "five" => compare_some(case, 5),
        _ => compare_some(case, 6),
    }
}
