//! One number for what is told of many graphs: that of another program, which goes by the definitions, has to be the same.

use crate::reading::graph_of_bits;
use case_texts::Case;
use graph_core::Graph;
use graph_core::loops::{Loop, NestFault};
use graph_covers::cover::CoverFault;
use std::alloc::Global;

fn mix(digest: u32, number: u32) -> u32 {
    digest.wrapping_mul(31).wrapping_add(number)
}

fn list_digest(digest: u32, list: &[u32], more: u32, end: u32) -> u32 {
    let mut digest = digest;
    for x in list {
        digest = mix(digest, x.wrapping_add(more));
    }
    mix(digest, end)
}

fn loops_digest(digest: u32, loops: &[Loop]) -> u32 {
    let mut digest = digest;
    for l in loops {
        digest = list_digest(mix(digest, l.entry().wrapping_add(1)), l.nodes(), 0, 9);
    }
    mix(digest, 8)
}

/// The digest with the loops of one graph more, or with its two entries.
fn nest_digest(alloc: Global, digest: u32, g: &Graph) -> u32 {
    if g.nodes() == 0 {
        return digest;
    }
    match graph_core::nest(alloc, g, 0) {
        Ok(nest) => loops_digest(digest, nest.loops()),
        Err(NestFault::TwoEntries { a, b }) => {
            mix(digest, a.wrapping_mul(10).wrapping_add(b).wrapping_add(100))
        }
        Err(NestFault::Memory) => 0,
    }
}

/// The digest with the covers of one graph more, or with the cycle that avoids a node.
fn covers_digest(alloc: Global, digest: u32, g: &Graph) -> u32 {
    match graph_covers::covers(alloc, g) {
        Ok(covers) => list_digest(digest, covers.as_slice(), 1, 8),
        Err(CoverFault::NoCover { avoided }) => list_digest(digest, &avoided, 20, 7),
        Err(CoverFault::Memory) => 0,
    }
}

/// The digest with one graph more.
fn digest_with(alloc: Global, what: &str, digest: u32, bits: u64) -> u32 {
    match graph_of_bits(alloc, 4, bits) {
        Ok(g) if what == "nest" => nest_digest(alloc, digest, &g),
        Ok(g) => covers_digest(alloc, digest, &g),
        Err(_) => 0,
    }
}

/// The digest of what is told of 3,000 graphs of four nodes.
pub(crate) fn digest(case: &mut Case<'_>) {
    let what = case.word();
    let mut digest = 0;
    for step in 0..3000u64 {
        digest = digest_with(case.alloc(), what, digest, step * 21 + 7);
    }
    case.show(&digest);
}
