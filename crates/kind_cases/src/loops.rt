//! Loops of methods: the entry of each, its blocks, its exits, the locals that it changes and the least height in it; behind
//! them the blocks at which nodes begin. Or the two blocks at which a loop is entered.

ghost use Rattle.std.specs.Prelude.{◌≡◌, length, IfOk};

use case_texts::Case;
use frame_kinds::Kinds;
use kind_frames::KindFact;
use loop_cut::{CodeLoop, CutFault, Loops, cut};
use method_body::Body;
use std::alloc::{AllocError, Global};

// The height of a frame that is known, or 0.
fn height_of(fact: &KindFact) -> u32 {
    match fact {
        KindFact::Known(frame) => u32::try_from(frame.height).unwrap_or(0),
        _ => 0,
    }
}

fn height_before(kinds: &Kinds, pc: u32, size: usize) -> u32
    requires { length kinds.now ≡ size }
{
    if (pc as usize) < size {
        return height_of(kinds.before(pc));
    }
    0
}

// The heights before the instructions.
fn heights(alloc: Global, body: &Body<'_>, kinds: &Kinds) -> Result<Vec<u32>, AllocError>
    requires { length kinds.now ≡ length body.now.code.bytes }
    ensures { IfOk result (λ hs. length hs.items ≡ length body.now.instructions) }
{
    let size = body.code().bytes.as_slice().len();
    let mut found = Vec::new(alloc);
    for i in body.instructions() {
        found.push(height_before(kinds, i.pc, size))?;
    }
    Ok(found)
}

fn put_places(case: &mut Case<'_>, label: &str, places: &[u32]) {
    case.put(label);
    for x in places {
        case.put(" ");
        case.show(x);
    }
}

fn put_loop(case: &mut Case<'_>, l: &CodeLoop) {
    case.part("; ");
    case.put("loop ");
    case.show(&l.entry);
    put_places(case, ": blocks", l.blocks.as_slice());
    put_places(case, ", exits", l.exits.as_slice());
    put_places(case, ", changed", l.changed.as_slice());
    case.put(", least ");
    case.show(&l.least_height);
}

fn put_loops(case: &mut Case<'_>, found: &Loops) {
    for l in found.loops.as_slice() {
        put_loop(case, l);
    }
    case.part("; ");
    put_places(case, "heads", found.heads.as_slice());
}

fn put_fault(case: &mut Case<'_>, fault: CutFault) {
    match fault {
        CutFault::Irreducible { a, b } => {
            case.put("irreducible ");
            case.show(&a);
            case.put(" ");
            case.show(&b);
        }
        CutFault::Memory => case.put("memory"),
    }
}

/// Adds the loops of the code to the answer.
pub fn put(case: &mut Case<'_>, body: &Body<'_>, kinds: &Kinds)
    requires { length kinds.now ≡ length body.now.code.bytes }
{
    match heights(case.alloc(), body, kinds) {
        Ok(heights) => match cut(case.alloc(), body, heights.as_slice()) {
            Ok(found) => put_loops(case, &found),
            Err(fault) => put_fault(case, fault),
        },
        Err(error) => case.keep(Err(error)),
    }
}
