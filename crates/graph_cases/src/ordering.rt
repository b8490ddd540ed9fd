//! The callee-first order of a graph's components, and how its loops lie in one another, as text.

ghost use Rattle.std.specs.Prelude.{◌≡◌, length, IfSome};

use crate::reading::graph_of;
use crate::telling::{put_nest_fault, put_numbers};
use case_texts::Case;
use graph_core::Graph;
use graph_loops::NestedLoops;
use std::alloc::AllocError;

/// The marks of the nodes that are named.
fn chosen_of(case: &mut Case<'_>, words: &str, nodes: usize) -> Option<Vec<bool>>
    ensures { IfSome result (λ chosen. length chosen.items ≡ nodes) }
{
    let Ok(mut chosen) = vec![in case.alloc(); false; nodes] else {
        case.keep(Err(AllocError));
        return None;
    };
    for word in words.split_whitespace() {
        let node: usize = case.parsed(word);
        if node < nodes {
            chosen[node] = true;
        } else {
            case.malformed("a chosen node is a node");
        }
    }
    Some(chosen)
}

/// The order of the chosen nodes.
fn put_order(case: &mut Case<'_>, g: &Graph, words: &str) {
    let Some(chosen) = chosen_of(case, words, g.nodes() as usize) else {
        return;
    };
    match graph_order::callees_first(case.alloc(), g, &chosen) {
        Ok(order) => put_numbers(case, &order),
        Err(_) => case.put("memory"),
    }
}

/// The order of what comes next: the chosen nodes, `of`, and a graph.
pub(crate) fn callees_first(case: &mut Case<'_>) {
    let words = case.until("of ");
    if let Some(g) = graph_of(case) {
        put_order(case, &g, words);
    }
}

/// An entry, or a dash.
fn put_entry(case: &mut Case<'_>, found: Option<u32>) {
    match found {
        None => case.put_word("-"),
        Some(h) => case.show_word(&h),
    }
}

/// The innermost loop of each node, its parent, and the order.
fn put_loops(case: &mut Case<'_>, nodes: u32, loops: &NestedLoops)
    requires innermost { nodes ≡ length loops.now.innermost }
    requires parents { nodes ≡ length loops.now.parents }
{
    case.put("inner");
    for x in 0..nodes {
        put_entry(case, loops.innermost(x));
    }
    case.put(", parents");
    for x in 0..nodes {
        put_entry(case, loops.parent(x));
    }
    case.put(", order");
    put_numbers(case, loops.order());
}

/// How the loops of what the first node reaches lie in one another.
pub(crate) fn nested(case: &mut Case<'_>, g: &Graph) {
    if g.nodes() == 0 {
        case.malformed("a graph has a node");
        return;
    }
    match graph_loops::loops(case.alloc(), g, 0) {
        Ok(loops) => put_loops(case, g.nodes(), &loops),
        Err(fault) => put_nest_fault(case, fault),
    }
}
