//! Where the kinds of a method disagree, and with which frames.
ghost use Rattle.std.specs.Prelude.{◌≡◌, ◌<◌, ◌++◌, ◌∷◌, [], ◌&&◌, not, length, option_map, find, IfSome, filter, map, IfOk, OnOk};
ghost use Rattle.std.specs.Option.{option_copied};
ghost use Rattle.op_table.specs.Actions.{action_of};
ghost use Rattle.code_blocks.specs.Blocks.{AreWithin};
ghost use Rattle.fix_engine.specs.Solution.{at_points, IsSolution};
ghost use Rattle.kind_frames.specs.Frames.{kind_order, frame_below};
ghost use Rattle.kind_effects.specs.Frames.{IsFact};
ghost use Rattle.frame_kinds.specs.Flow.{edges_of, entry_of, made_by, kind_problem};
ghost use Rattle.frame_kinds.specs.Disagreeing.{disagrees_with, disagrees, first_disagreement, is_same, is_reached, leads_to, on_edges, at_entry, frames_into, first_two, frames_told};

use crate::edge::Edge;
use crate::flow::{KindFlow, entry};
use code_blocks::Instruction;
use fix_engine::Solution;
use kind_effects::{fact_after, uses_top};
use kind_frames::{KindFact, KindFrame};
use method_body::Body;
use op_table::action_of;
use op_table::acts::Action;
use std::alloc::{AllocError, Global};

// Whether the kinds disagree with what is known before an instruction that does this.
fn disagrees_with(body: &Body<'_>, action: Action, fact: &KindFact) -> bool
    ensures { result ≡ disagrees_with body.now action fact.now }
{
    match fact {
        KindFact::Unreached => false,
        KindFact::Known(frame) => {
            uses_top(&body.class().pool, action, body.code().max_locals, frame)
        }
        KindFact::Mixed => true,
    }
}

// Whether one lies below the other and the other below the one.
fn is_same(a: &KindFact, b: &KindFact) -> bool
    ensures { result ≡ is_same a.now b.now }
{
    match (a, b) {
        (KindFact::Known(a), KindFact::Known(b)) => are_same(a, b),
        (KindFact::Unreached, KindFact::Unreached) | (KindFact::Mixed, KindFact::Mixed) => true,
        _ => false,
    }
}

fn are_same(a: &KindFrame, b: &KindFrame) -> bool
    ensures { result ≡ (frame_below a.now b.now && frame_below b.now a.now) }
{
    a.height == b.height && a.slots.are_below(&b.slots) && b.slots.are_below(&a.slots)
}

fn is_reached(fact: &KindFact) -> bool
    ensures { result ≡ is_reached fact.now }
{
    !matches!(fact, KindFact::Unreached)
}

fn copy_of(fact: &KindFact) -> Result<KindFact, AllocError>
    ensures { IfOk result (λ copy. copy ≡ fact.now) }
{
    match fact {
        KindFact::Unreached => Ok(KindFact::Unreached),
        KindFact::Known(frame) => Ok(KindFact::Known(KindFrame {
            height: frame.height,
            slots: frame.slots.copy()?,
        })),
        KindFact::Mixed => Ok(KindFact::Mixed),
    }
}

/// The first place at which the kinds disagree with these facts.
pub(crate) fn first_disagreement(body: &Body<'_>, facts: &Solution<KindFact>) -> Option<u32>
    requires { AreWithin (length facts.now) body.now.instructions }
    ensures first { result ≡ first_disagreement body.now (at_points (kind_problem body.now) facts.now) }
    ensures there { IfSome result (λ pc. pc < length facts.now) }
{
    for instruction in body.instructions() {
        let action = action_of(&instruction.instr);
        if disagrees_with(body, action, facts.at(instruction.pc)) {
            return Some(instruction.pc);
        }
    }
    None
}

// Adds what is known of the frames on an edge, where any come there.
fn add_made(
    alloc: Global,
    body: &Body<'_>,
    facts: &Solution<KindFact>,
    edge: &Edge,
    made: &mut Vec<KindFact>,
) -> Result<(), AllocError>
    requires there { edge.now.from < length facts.now }
    requires fact { IsFact body.now.code.max_locals (at_points (kind_problem body.now) facts.now edge.now.from) }
    ensures { OnOk result (made.new.items
        ≡ made.old.items ++ filter is_reached (made_by body.now edge.now (at_points (kind_problem body.now) facts.now edge.now.from) ∷ [])) }
{
    let locals = body.code().max_locals;
    let fact = facts.at(edge.from);
    let fact = fact_after(alloc, &body.class().pool, edge.action, locals, fact)?;
    if is_reached(&fact) {
        made.push(fact)?;
    }
    Ok(())
}

// Adds what is known of the frames on the edges into a place.
fn add_on_edges(
    alloc: Global,
    flow: &KindFlow<'_, '_>,
    facts: &Solution<KindFact>,
    pc: u32,
    made: &mut Vec<KindFact>,
) -> Result<(), AllocError>
    requires count { length facts.now ≡ length flow.now.body.now.code.bytes }
    requires solved { IsSolution kind_order (kind_problem flow.now.body.now) (at_points (kind_problem flow.now.body.now) facts.now) }
    ensures { OnOk result (made.new.items
        ≡ made.old.items ++ on_edges flow.now.body.now (at_points (kind_problem flow.now.body.now) facts.now) pc (edges_of flow.now.body.now.instructions)) }
{
    for edge in flow.edges.as_slice() {
        if edge.to == pc {
            add_made(alloc, flow.body, facts, edge, made)?;
        }
    }
    Ok(())
}

// Adds the method's entry, at the place where it is.
fn add_entry(
    alloc: Global,
    body: &Body<'_>,
    pc: u32,
    made: &mut Vec<KindFact>,
) -> Result<(), AllocError>
    ensures { OnOk result (made.new.items ≡ made.old.items ++ at_entry body.now pc) }
{
    if pc == 0 {
        made.push(KindFact::Known(entry(alloc, body)?))?;
    }
    Ok(())
}

// What is known of the frames that come to a place.
fn frames_into(
    alloc: Global,
    flow: &KindFlow<'_, '_>,
    facts: &Solution<KindFact>,
    pc: u32,
) -> Result<Vec<KindFact>, AllocError>
    requires count { length facts.now ≡ length flow.now.body.now.code.bytes }
    requires solved { IsSolution kind_order (kind_problem flow.now.body.now) (at_points (kind_problem flow.now.body.now) facts.now) }
    ensures { IfOk result (λ frames. frames.items
        ≡ frames_into flow.now.body.now (at_points (kind_problem flow.now.body.now) facts.now) pc) }
{
    let mut made = Vec::new(alloc);
    add_entry(alloc, flow.body, pc, &mut made)?;
    add_on_edges(alloc, flow, facts, pc, &mut made)?;
    Ok(made)
}

// The first of the others that differs from a fact.
fn first_other<'a>(fact: &KindFact, others: &'a [KindFact]) -> Option<&'a KindFact>
    ensures { option_copied result ≡ find (λ b. not (is_same fact.now b)) others.now }
{
    others.iter().find(|other| !is_same(fact, other))
}

// The first two facts that differ.
fn first_two(facts: &[KindFact]) -> Option<(&KindFact, &KindFact)>
    ensures { option_map (λ r. (r.0.now, r.1.now)) result ≡ first_two facts.now }
{
    let (first, others) = facts.split_first()?;
    let other = first_other(first, others)?;
    Some((first, other))
}

/// The first two frames that differ on edges into a place, or twice the frame there. `Err` is want of memory.
pub(crate) fn frames_told(
    alloc: Global,
    flow: &KindFlow<'_, '_>,
    facts: &Solution<KindFact>,
    pc: u32,
) -> Result<(KindFact, KindFact), AllocError>
    requires there { pc < length facts.now }
    requires count { length facts.now ≡ length flow.now.body.now.code.bytes }
    requires solved { IsSolution kind_order (kind_problem flow.now.body.now) (at_points (kind_problem flow.now.body.now) facts.now) }
    ensures { IfOk result (λ frames. frames
        ≡ frames_told flow.now.body.now (at_points (kind_problem flow.now.body.now) facts.now) pc) }
{
    let frames = frames_into(alloc, flow, facts, pc)?;
    match first_two(frames.as_slice()) {
        Some((first, second)) => Ok((copy_of(first)?, copy_of(second)?)),
        None => Ok((copy_of(facts.at(pc))?, copy_of(facts.at(pc))?)),
    }
}
