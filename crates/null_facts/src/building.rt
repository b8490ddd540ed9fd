//! The places and edges of a program's code.
ghost use Rattle.std.specs.Prelude.{◌≡◌, ◌+◌, ◌++◌, flat_map, IfOk, OnOk};
ghost use Rattle.std.specs.List.{zip};
ghost use Rattle.null_facts.specs.Program.{size_of, sizes_in, sizes_of, firsts_of, first_at, has_receiver, receiver_of, edge_from, onward, entering, edges_at, edges_in};

use crate::method::NullMethod;
use class_reader::is_static;
use code_blocks::Instruction;
use kind_effects::pops;
use kind_frames::KindFact;
use method_body::Body;
use null_flow::{NullEdge, Way};
use op_table::action_of;
use op_table::acts::{Action, Call};
use std::alloc::{AllocError, Global};

// ---- numbers

// The number that stands so far behind another. Numbers of 2^32 and more are want of memory.
fn number(first: u32, offset: usize) -> Result<u32, AllocError>
    ensures { IfOk result (λ sum. sum ≡ first + offset) }
{
    let Some(sum) = (first as usize).checked_add(offset) else {
        return Err(AllocError);
    };
    if sum > u32::MAX as usize {
        return Err(AllocError);
    }
    Ok(sum as u32)
}

// ---- places

// How many slots frames have.
fn size_of(fact: &KindFact) -> usize
    ensures { result ≡ size_of fact.now }
{
    match fact {
        KindFact::Known(frame) => frame.slots.as_slice().len(),
        KindFact::Unreached | KindFact::Mixed => 0,
    }
}

// Adds how many slots frames have at each place of the method.
fn add_sizes(sizes: &mut Vec<u32>, method: &NullMethod<'_, '_>) -> Result<(), AllocError>
    ensures { OnOk result (sizes.new.items ≡ sizes.old.items ++ sizes_in method.now) }
{
    for pc in 0..method.body.code().bytes.len() as u32 {
        sizes.push(number(0, size_of(method.kinds.before(pc)))?)?;
    }
    Ok(())
}

/// How many slots frames have at each place, method after method.
pub(crate) fn sizes(alloc: Global, methods: &[NullMethod<'_, '_>]) -> Result<Vec<u32>, AllocError>
    ensures { IfOk result (λ sizes. sizes.items ≡ sizes_of methods.now) }
{
    let mut sizes = Vec::new(alloc);
    for method in methods {
        add_sizes(&mut sizes, method)?;
    }
    Ok(sizes)
}

/// The number of each method's first place.
pub(crate) fn firsts(alloc: Global, methods: &[NullMethod<'_, '_>]) -> Result<Vec<u32>, AllocError>
    ensures { IfOk result (λ firsts. firsts.items ≡ firsts_of methods.now) }
{
    let mut firsts = Vec::new(alloc);
    let mut first = 0;
    for method in methods {
        firsts.push(first)?;
        first = number(first, method.body.code().bytes.len())?;
    }
    Ok(firsts)
}

// ---- edges

#[tactic(auto, unfolding(crate::specs::Program::has_receiver))]
fn has_receiver(action: Action) -> bool
    ensures { result ≡ has_receiver action }
{
    match action {
        Action::Call(Call::Static, _) => false,
        Action::Call(_, _) => true,
        _ => false,
    }
}

/// Whether the first method has a receiver.
pub(crate) fn receiver_of(methods: &[NullMethod<'_, '_>]) -> bool
    ensures { result ≡ receiver_of methods.now }
{
    match methods.first() {
        Some(method) => !is_static(method.body.method().flags),
        None => false,
    }
}

// An edge from an instruction of a method whose first place has this number.
fn edge_from(
    body: &Body<'_>,
    first: u32,
    instruction: &Instruction,
    way: Way,
    to: u32,
) -> Result<NullEdge, AllocError>
    ensures { IfOk result (λ edge. edge ≡ edge_from body.now first instruction.now way to) }
{
    let action = action_of(&instruction.instr);
    Ok(NullEdge {
        from: number(first, instruction.pc as usize)?,
        to,
        locals: body.code().max_locals,
        pops: pops(&body.class().pool, action),
        way,
    })
}

// Adds the edges to the instructions that can come next.
fn add_onward(
    edges: &mut Vec<NullEdge>,
    body: &Body<'_>,
    first: u32,
    instruction: &Instruction,
) -> Result<(), AllocError>
    ensures { OnOk result (edges.new.items ≡ edges.old.items ++ onward body.now first instruction.now) }
{
    let way = Way::Behind(action_of(&instruction.instr));
    for to in instruction.successors.as_slice() {
        let to = number(first, *to as usize)?;
        edges.push(edge_from(body, first, instruction, way, to)?)?;
    }
    Ok(())
}

fn first_at(firsts: &[u32], method: u32) -> u32
    ensures { result ≡ first_at firsts.now method }
{
    match firsts.get(method as usize) {
        Some(first) => *first,
        None => 0,
    }
}

// Adds the edges to the methods that the instruction can call.
fn add_entering(
    edges: &mut Vec<NullEdge>,
    firsts: &[u32],
    body: &Body<'_>,
    first: u32,
    instruction: &Instruction,
    targets: &[u32],
) -> Result<(), AllocError>
    ensures { OnOk result (edges.new.items ≡ edges.old.items ++ entering firsts.now body.now first instruction.now targets.now) }
{
    let way = Way::Enters(has_receiver(action_of(&instruction.instr)));
    for target in targets {
        let to = first_at(firsts, *target);
        edges.push(edge_from(body, first, instruction, way, to)?)?;
    }
    Ok(())
}

// Adds the edges from the instruction.
fn add_edges_at(
    edges: &mut Vec<NullEdge>,
    firsts: &[u32],
    body: &Body<'_>,
    first: u32,
    instruction: &Instruction,
    targets: &[u32],
) -> Result<(), AllocError>
    ensures { OnOk result (edges.new.items ≡ edges.old.items ++ edges_at firsts.now body.now first (instruction.now, targets.now)) }
{
    add_onward(edges, body, first, instruction)?;
    add_entering(edges, firsts, body, first, instruction, targets)
}

// Adds the edges from the method's instructions.
fn add_edges(
    edges: &mut Vec<NullEdge>,
    firsts: &[u32],
    first: u32,
    method: &NullMethod<'_, '_>,
) -> Result<(), AllocError>
    ensures { OnOk result (edges.new.items ≡ edges.old.items ++ edges_in firsts.now (first, method.now)) }
{
    let instructions = method.body.instructions();
    for (instruction, targets) in instructions.iter().zip(method.targets.as_slice().iter()) {
        let targets = targets.as_slice();
        add_edges_at(edges, firsts, method.body, first, instruction, targets)?;
    }
    Ok(())
}

/// The edges of the whole program, where its methods' first places have these numbers.
pub(crate) fn edges(
    alloc: Global,
    firsts: &[u32],
    methods: &[NullMethod<'_, '_>],
) -> Result<Vec<NullEdge>, AllocError>
    ensures { IfOk result (λ edges. edges.items ≡ flat_map (edges_in firsts.now) (zip firsts.now methods.now)) }
{
    let mut edges = Vec::new(alloc);
    for (first, method) in firsts.iter().zip(methods.iter()) {
        add_edges(&mut edges, firsts, *first, method)?;
    }
    Ok(edges)
}
