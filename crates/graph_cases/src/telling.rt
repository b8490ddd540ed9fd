//! What is told of a graph, as text.

ghost use Rattle.std.specs.Prelude.{◌<◌, length};
ghost use Rattle.graph_core.specs.Search.{IsSearch};

use case_texts::Case;
use graph_core::loops::{Loop, Nest, NestFault};
use graph_core::{FirstPaths, Graph, first_paths};
use graph_covers::cover::CoverFault;
use std::alloc::AllocError;

/// Numbers with a space between.
pub(crate) fn put_numbers(case: &mut Case<'_>, list: &[u32]) {
    for number in list {
        case.show_word(number);
    }
}

fn put_edge(case: &mut Case<'_>, a: u32, b: u32) {
    case.show_word(&a);
    case.put("-");
    case.show(&b);
}

fn put_edges(case: &mut Case<'_>, g: &Graph, a: u32)
    requires { a < length g.now }
{
    for b in g.successors(a) {
        if g.has_edge(a, *b) {
            put_edge(case, a, *b);
        }
    }
}

pub(crate) fn edges(case: &mut Case<'_>, g: &Graph) {
    case.show(&g.nodes());
    case.put(":");
    for a in 0..g.nodes() {
        put_edges(case, g, a);
    }
}

/// The edges of a graph that was made.
fn edges_of(case: &mut Case<'_>, made: Result<Graph, AllocError>) {
    if let Some(g) = case.made(made) {
        edges(case, &g);
    }
}

pub(crate) fn reversed(case: &mut Case<'_>, g: &Graph) {
    let back = g.reversed(case.alloc());
    edges_of(case, back);
}

/// The edges that don't lead to the last node.
pub(crate) fn without_last(case: &mut Case<'_>, g: &Graph) {
    let Ok(mut dropped) = vec![in case.alloc(); false; g.nodes() as usize] else {
        case.keep(Err(AllocError));
        return;
    };
    if let Some(last) = dropped.last_mut() {
        *last = true;
    }
    let kept = g.without(case.alloc(), &dropped);
    edges_of(case, kept);
}

/// The first path from the first node to the last one, by looking through all paths.
pub(crate) fn first_path(case: &mut Case<'_>, g: &Graph) {
    if g.nodes() == 0 {
        case.malformed("a graph has a node");
        return;
    }
    match plain_graphs::first_path(case.alloc(), g, 0, g.nodes() - 1) {
        Ok(Some(rest)) => put_numbers(case, &rest),
        Ok(None) => case.put("none"),
        Err(_) => case.put("memory"),
    }
}

/// The nodes on the first path to the last node, in rising order.
fn put_on_path(case: &mut Case<'_>, g: &Graph, paths: &FirstPaths)
    requires root { 0 < length g.now }
    requires paths { IsSearch g.now 0 paths.now }
{
    let last = g.nodes() - 1;
    if !paths.reaches(last) {
        case.put("none");
        return;
    }
    for h in 0..g.nodes() {
        if paths.lies_on(h, last) {
            case.show_word(&h);
        }
    }
}

/// The nodes of the first path from the first node to the last one, in rising order, by a search.
pub(crate) fn on_first_path(case: &mut Case<'_>, g: &Graph) {
    if g.nodes() == 0 {
        case.malformed("a graph has a node");
        return;
    }
    match first_paths(case.alloc(), g, 0) {
        Ok(paths) => put_on_path(case, g, &paths),
        Err(_) => case.put("memory"),
    }
}

/// The number of each node's component, and how many there are.
pub(crate) fn components(case: &mut Case<'_>, g: &Graph) {
    match graph_core::components(case.alloc(), g) {
        Ok(found) => {
            for v in 0..g.nodes() {
                case.show_word(&found.of(v));
            }
            case.put(" of ");
            case.show(&found.count());
        }
        Err(_) => case.put("memory"),
    }
}

fn put_loop(case: &mut Case<'_>, l: &Loop) {
    case.show_word(&l.entry());
    case.put(":");
    put_numbers(case, l.nodes());
    case.put(";");
}

/// The two entries of a loop.
pub(crate) fn put_nest_fault(case: &mut Case<'_>, fault: NestFault) {
    match fault {
        NestFault::TwoEntries { a, b } => {
            case.put("entries");
            case.show_word(&a);
            case.show_word(&b);
        }
        NestFault::Memory => case.put("memory"),
    }
}

/// The loops, or where one is also entered.
pub(crate) fn put_nest(case: &mut Case<'_>, told: Result<Nest, NestFault>) {
    match told {
        Ok(nest) => {
            for l in nest.loops() {
                put_loop(case, l);
            }
        }
        Err(fault) => put_nest_fault(case, fault),
    }
}

/// The loops of what the first node reaches.
pub(crate) fn nest(case: &mut Case<'_>, g: &Graph) {
    if g.nodes() == 0 {
        case.malformed("a graph has a node");
        return;
    }
    let nest = graph_core::nest(case.alloc(), g, 0);
    put_nest(case, nest);
}

/// Why there are no covers.
pub(crate) fn put_cover_fault(case: &mut Case<'_>, fault: CoverFault) {
    match fault {
        CoverFault::NoCover { avoided } => {
            case.put("avoided");
            put_numbers(case, &avoided);
        }
        CoverFault::Memory => case.put("memory"),
    }
}

/// The cover of each node, or why there are none.
pub(crate) fn covers(case: &mut Case<'_>, g: &Graph) {
    match graph_covers::covers(case.alloc(), g) {
        Ok(covers) => put_numbers(case, covers.as_slice()),
        Err(fault) => put_cover_fault(case, fault),
    }
}

/// The edges to nodes that are no covers along which ranks don't go down.
fn put_level(case: &mut Case<'_>, g: &Graph, covers: &[u32], ranks: &[u32], a: u32)
    requires { a < length g.now }
{
    for b in g.successors(a) {
        if covers.get(*b as usize) != Some(b) && ranks.get(*b as usize) >= ranks.get(a as usize) {
            put_edge(case, a, *b);
        }
    }
}

/// The edges along which ranks have to go down and don't.
pub(crate) fn ranks(case: &mut Case<'_>, g: &Graph) {
    let covers = match graph_covers::covers(case.alloc(), g) {
        Ok(covers) => covers,
        Err(fault) => {
            put_cover_fault(case, fault);
            return;
        }
    };
    let mut ranks = Vec::new(case.alloc());
    let mut nodes = Vec::new(case.alloc());
    for v in 0..g.nodes() {
        case.add(&mut nodes, covers.cover(v));
        case.add(&mut ranks, covers.rank(v));
    }
    case.put("level:");
    for a in 0..g.nodes() {
        put_level(case, g, &nodes, &ranks, a);
    }
}
