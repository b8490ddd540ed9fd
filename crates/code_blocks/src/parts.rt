//! The blocks of a method's instructions.

ghost use Rattle.std.specs.Prelude.{◌≡◌, ◌↔◌, ◌+◌, ◌<◌, ◌≤◌, true, All, Some, length, slice_get, IfOk, OnOk, IsTrue};
ghost use Rattle.code_blocks.specs.declared.instruction.Instruction.{Instruction as InstructionValue};
ghost use Rattle.code_blocks.specs.Blocks.{AreBlocks, AreWithin};
ghost use Rattle.code_blocks.specs.inside.Cutting.{AreBlocksTo, IsBlockOf, IsRun, IsSurvey, is_cut};

use crate::instruction::{Block, Instruction};
use crate::marks::{Places, begins};
use crate::reaching::{is_reached, searched};
use class_pool::Sequence;
use graph_core::FirstPaths;
use std::alloc::{AllocError, Global};

// Whether all of the places are below the size.
fn are_below(size: u32, places: &[u32]) -> bool
    ensures { IsTrue result ↔ All (λ x. x < size) places.now }
{
    places.iter().all(|x| *x < size)
}

// Whether the instruction and its successors are below the size.
fn is_within(size: u32, i: &Instruction) -> bool
    ensures { IsTrue result ↔ ((i.now.pc < size) × All (λ x. x < size) i.now.successors) }
{
    i.pc < size && are_below(size, i.successors.as_slice())
}

// Whether the first instruction stands at the beginning, where there is one.
fn is_started(instructions: &[Instruction]) -> bool
    ensures { IsTrue result ↔ ((i : InstructionValue) → slice_get instructions.now 0 ≡ Some i → i.pc ≡ 0) }
{
    match instructions.first() {
        Some(i) => i.pc == 0,
        None => true,
    }
}

/// Whether the instructions and their successors stand in code of this size, and the first at its beginning.
pub fn are_within(size: u32, instructions: &[Instruction]) -> bool
    ensures { IsTrue result ↔ AreWithin size instructions.now }
{
    if !is_started(instructions) {
        return false;
    }
    for i in instructions {
        if !is_within(size, i) {
            return false;
        }
    }
    true
}

/// What is known of the places of code.
#[derive(Drop)]
struct Survey {
    size: u32,
    starts: Places,
    paths: FirstPaths,
}

fn survey_of(alloc: Global, size: u32, instructions: &[Instruction]) -> Result<Survey, AllocError>
    requires within { AreWithin size instructions.now }
    requires some { 0 < size }
    ensures { IfOk result (λ s. IsSurvey size instructions.now s) }
{
    Ok(Survey {
        size,
        starts: begins(alloc, size as usize, instructions)?,
        paths: searched(alloc, size, instructions)?,
    })
}

// Whether a block ends with the instruction: it is the last one, or the next one begins a block.
fn is_cut(survey: &Survey, instructions: &[Instruction], place: usize) -> bool
    requires survey { IsSurvey survey.now.size instructions.now survey.now }
    requires within { AreWithin survey.now.size instructions.now }
    requires place { place < length instructions.now }
    ensures { result ≡ is_cut instructions.now place }
{
    match instructions.get(place + 1) {
        Some(next) => survey.starts.has(next.pc as usize),
        None => true,
    }
}

// The block of these instructions.
fn block(
    alloc: Global,
    instructions: &[Instruction],
    first: u32,
    last: u32,
) -> Result<Block, AllocError>
    requires first { first < length instructions.now }
    requires last { last < length instructions.now }
    ensures { IfOk result (λ b. IsBlockOf instructions.now first last b) }
{
    let successors = Vec::from_slice(alloc, instructions[last as usize].successors.as_slice())?;
    Ok(Block {
        pc: instructions[first as usize].pc,
        first,
        last,
        successors: Sequence::from(successors),
    })
}

// Adds the block of these instructions, where successors lead to it.
fn add_block(
    alloc: Global,
    survey: &Survey,
    instructions: &[Instruction],
    first: u32,
    last: u32,
    blocks: &mut Sequence<Block>,
) -> Result<(), AllocError>
    requires survey { IsSurvey survey.now.size instructions.now survey.now }
    requires within { AreWithin survey.now.size instructions.now }
    requires known { AreBlocksTo instructions.now first blocks.old }
    requires whole { IsRun instructions.now first last }
    requires last { last < length instructions.now }
    requires cut { is_cut instructions.now last ≡ true }
    ensures { OnOk result (AreBlocksTo instructions.now (last + 1) blocks.new) }
{
    let block = block(alloc, instructions, first, last)?;
    if is_reached(survey.size, &survey.paths, block.pc) {
        blocks.push(block)?;
    }
    Ok(())
}

/// The blocks of a method's instructions that successors lead to, in order. The size is that of the code.
pub fn blocks(
    alloc: Global,
    size: u32,
    instructions: &[Instruction],
) -> Result<Sequence<Block>, AllocError>
    requires some { 0 < size }
    requires few { length instructions.now ≤ 65535 }
    requires within { AreWithin size instructions.now }
    ensures { IfOk result (λ blocks. AreBlocks instructions.now blocks) }
{
    let survey = survey_of(alloc, size, instructions)?;
    let mut blocks = Sequence::new(alloc);
    let mut first: u32 = 0;
    for last in 0..instructions.len() {
        if is_cut(&survey, instructions, last) {
            add_block(
                alloc,
                &survey,
                instructions,
                first,
                last as u32,
                &mut blocks,
            )?;
            first = last as u32 + 1;
        }
    }
    Ok(blocks)
}
