//! What runs in a loop.

ghost use Rattle.std.specs.Prelude.{◌≡◌, ◌≤◌, ◌<◌, ◌++◌, ◌∷◌, [], ◌^◌, ℕ, List, All, Some, length, flat_map, slice_get, IfOk, OnOk};
ghost use Rattle.code_blocks.specs.declared.instruction.Block.{Block as BlockValue};
ghost use Rattle.code_blocks.specs.Successors.{rising};
ghost use Rattle.loop_cut.specs.inside.Gathered.{AreFloors, AreNumbers, IsLeastOf, part_at, stored_at, stored_in};

use crate::effects::stored_by;
use class_pool::{Pool, Sequence};
use code_blocks::{Block, Instruction, rising};
use kind_effects::pops;
use op_table::action_of;
use std::alloc::{AllocError, Global};

/// The number of the block that begins at each place of the code where one does.
pub(crate) fn numbers(alloc: Global, size: u32, blocks: &[Block]) -> Result<Vec<usize>, AllocError>
    requires within { All (λ b. b.pc < size) blocks.now }
    requires apart { (j k : ℕ) (b c : BlockValue) → slice_get blocks.now j ≡ Some b → slice_get blocks.now k ≡ Some c
        → b.pc ≡ c.pc → j ≡ k }
    ensures count { IfOk result (λ ns. length ns.items ≡ size) }
    ensures numbers { IfOk result (λ ns. AreNumbers blocks.now ns.items) }
{
    let mut numbers = vec![in alloc; 0_usize; size as usize]?;
    for k in 0..blocks.len() {
        numbers[blocks[k].pc as usize] = k;
    }
    Ok(numbers)
}

/// The height inside each instruction, after what it pops: heights are those before the instructions.
pub(crate) fn floors(
    alloc: Global,
    pool: &Pool,
    instructions: &[Instruction],
    heights: &[u32],
) -> Result<Vec<u32>, AllocError>
    requires { length heights.now ≡ length instructions.now }
    ensures { IfOk result (λ floors. AreFloors pool.now instructions.now heights.now floors.items) }
{
    let mut floors = Vec::new(alloc);
    for k in 0..instructions.len() {
        let popped = pops(pool, action_of(&instructions[k].instr));
        floors.push((heights[k] as usize).saturating_sub(popped) as u32)?;
    }
    Ok(floors)
}

// The part of a list that belongs to the block at a place, where one begins there.
fn part_at<'a, T>(items: &'a [T], blocks: &[Block], numbers: &[usize], pc: u32) -> &'a [T]
    requires place { pc < length numbers.now }
    requires within { All (λ b. (b.first ≤ b.last) × (b.last < length items.now)) blocks.now }
    ensures { result.now ≡ part_at items.now blocks.now numbers.now pc }
{
    match blocks.get(numbers[pc as usize]) {
        Some(b) => &items[b.first as usize..b.last as usize + 1],
        None => &[],
    }
}

// Adds the locals that these instructions store to.
fn add_stored(instructions: &[Instruction], slots: &mut Vec<u32>) -> Result<(), AllocError>
    ensures { OnOk result (slots.new.items ≡ slots.old.items ++ stored_in instructions.now) }
{
    for i in instructions {
        stored_by(action_of(&i.instr), slots)?;
    }
    Ok(())
}

/// The locals that the blocks at these places store to, in rising order.
pub(crate) fn changed(
    alloc: Global,
    instructions: &[Instruction],
    blocks: &[Block],
    numbers: &[usize],
    places: &[u32],
) -> Result<Sequence<u32>, AllocError>
    requires places { All (λ x. x < length numbers.now) places.now }
    requires within { All (λ b. (b.first ≤ b.last) × (b.last < length instructions.now)) blocks.now }
    ensures { IfOk result (λ slots. slots ≡ rising (flat_map (stored_at instructions.now blocks.now numbers.now) places.now)) }
{
    let mut slots = Vec::new(alloc);
    for pc in places {
        add_stored(part_at(instructions, blocks, numbers, *pc), &mut slots)?;
    }
    Ok(rising(slots))
}

// The lower of what is the least so far, if any is, and another number.
fn lower(so_far: Option<u32>, n: u32) -> Option<u32>
    ensures { (xs : List ℕ) → IsLeastOf xs so_far → IsLeastOf (xs ++ n ∷ []) result }
{
    match so_far {
        None => Some(n),
        Some(least) => { if n < least { Some(n) } else { Some(least) } }
    }
}

// The least of the numbers and of what is the least so far.
fn least(so_far: Option<u32>, numbers: &[u32]) -> Option<u32>
    ensures { (xs : List ℕ) → IsLeastOf xs so_far → IsLeastOf (xs ++ numbers.now) result }
{
    let mut least = so_far;
    for n in numbers {
        least = lower(least, *n);
    }
    least
}

/// The least height in the blocks at these places.
pub(crate) fn least_at(
    floors: &[u32],
    blocks: &[Block],
    numbers: &[usize],
    places: &[u32],
) -> Option<u32>
    requires places { All (λ x. x < length numbers.now) places.now }
    requires within { All (λ b. (b.first ≤ b.last) × (b.last < length floors.now)) blocks.now }
    ensures { IsLeastOf (flat_map (part_at floors.now blocks.now numbers.now) places.now) result }
{
    let mut lowest = None;
    for pc in places {
        lowest = least(lowest, part_at(floors, blocks, numbers, *pc));
    }
    lowest
}
