//! Where the code goes on from an instruction.

ghost use Rattle.std.specs.Prelude.{◌≡◌, ◌+◌, ◌<◌, ◌≤◌, ◌++◌, ◌∷◌, [], pos, not, length, flat_map, Ok, IfOk, OnOk, ◌+ℤ◌};
ghost use Rattle.std.specs.List.{list_any};
ghost use Rattle.op_table.specs.Actions.{action_of};
ghost use Rattle.op_table.specs.Cases.{case_count, cases_of};
ghost use Rattle.op_table.specs.Grammar.{instr_at};
ghost use Rattle.code_blocks.specs.Blocks.{ends_block};
ghost use Rattle.code_blocks.specs.Placing.{placed, ArePlaces, is_marked_at};
ghost use Rattle.code_blocks.specs.Successors.{goes_behind, case_distances, distances_by, distances, place_so_far, targets, behind, rising, successors_of, instruction_of, instructions_of, has_bad_target};

use crate::instruction::{Instruction, Placed};
use crate::laws::code_is_laid_out;
use crate::marks::Places;
use crate::placing::placed;
use class_pool::Sequence;
use op_table::acts::Action;
use op_table::{Args, Instr, action_of, case};
use std::alloc::{AllocError, Global};

// Whether the code can go on behind it.
fn goes_behind(action: Action) -> bool
    ensures { result ≡ goes_behind action }
{
    !matches!(
        action,
        Action::Goto(_)
            | Action::Switch { .. }
            | Action::Return(_)
            | Action::ReturnNothing
            | Action::Throw
    )
}

/// Whether a block ends with what does this: a jump, a switch, a return or a throw.
pub fn is_end(action: Action) -> bool
    ensures { result ≡ ends_block action }
{
    matches!(
        action,
        Action::IfZero(..)
            | Action::IfInts(..)
            | Action::IfSame(..)
            | Action::IfNull(..)
            | Action::Goto(_)
            | Action::Switch { .. }
            | Action::Return(_)
            | Action::ReturnNothing
            | Action::Throw
    )
}

// ---- distances

// Adds how far the cases of a switch jump.
fn add_cases(code: &[u8], pc: u32, count: u32, far: &mut Vec<i32>) -> Result<(), AllocError>
    requires inside { pc < length code.now }
    requires small { length code.now ≤ 65535 }
    requires known { count ≤ cases_of (instr_at code.now pc) }
    ensures { OnOk result (far.new.items ≡ far.old.items ++ case_distances code.now pc 0 count) }
{
    for i in 0..count {
        let (_, distance) = case(code, pc, i);
        far.push(distance)?;
    }
    Ok(())
}

// Adds a distance.
fn add_one(far: &mut Vec<i32>, distance: i32) -> Result<(), AllocError>
    ensures { OnOk result (far.new.items ≡ far.old.items ++ distance ∷ []) }
{
    far.push(distance)?;
    Ok(())
}

// How many cases the instruction has.
fn case_count(instr: &Instr) -> u32
    ensures { result ≡ case_count instr.now.args }
{
    match instr.args {
        Args::Switch { count, .. } => count,
        _ => 0,
    }
}

// Adds how far what the instruction does can jump.
fn add_distances(
    code: &[u8],
    pc: u32,
    cases: u32,
    action: Action,
    far: &mut Vec<i32>,
) -> Result<(), AllocError>
    requires inside { pc < length code.now }
    requires small { length code.now ≤ 65535 }
    requires known { cases ≤ cases_of (instr_at code.now pc) }
    ensures { OnOk result (far.new.items ≡ far.old.items ++ distances_by code.now pc cases action) }
{
    match action {
        Action::IfZero(_, distance) => add_one(far, distance),
        Action::IfInts(_, distance) => add_one(far, distance),
        Action::IfSame(_, distance) => add_one(far, distance),
        Action::IfNull(_, distance) => add_one(far, distance),
        Action::Goto(distance) => add_one(far, distance),
        Action::Switch { default, .. } => {
            add_one(far, default)?;
            add_cases(code, pc, cases, far)
        }
        _ => Ok(()),
    }
}

// How far the instruction can jump.
fn distances(alloc: Global, code: &[u8], p: &Placed) -> Result<Vec<i32>, AllocError>
    requires small { length code.now ≤ 65535 }
    requires stands { instr_at code.now p.now.pc ≡ Ok p.now.instr }
    requires inside { p.now.pc < length code.now }
    ensures { IfOk result (λ far. far.items ≡ distances code.now p.now) }
{
    let mut far = Vec::new(alloc);
    add_distances(
        code,
        p.pc,
        case_count(&p.instr),
        action_of(&p.instr),
        &mut far,
    )?;
    Ok(far)
}

// ---- successors

// Adds the place so far from a pc, where it isn't below 0.
fn add_place(pc: u32, distance: i32, places: &mut Vec<u32>) -> Result<(), AllocError>
    requires { pc ≤ 65535 }
    ensures { OnOk result (places.new.items ≡ places.old.items ++ place_so_far pc distance) }
{
    match pc.checked_add_signed(distance) {
        Some(place) => places.push(place)?,
        None => {}
    }
    Ok(())
}

// Adds the places so far from a pc.
fn add_places(pc: u32, far: &[i32], places: &mut Vec<u32>) -> Result<(), AllocError>
    requires { pc ≤ 65535 }
    ensures { OnOk result (places.new.items ≡ places.old.items ++ flat_map (place_so_far pc) far.now) }
{
    for distance in far {
        add_place(pc, *distance, places)?;
    }
    Ok(())
}

// The place behind the instruction, where the code can go on there.
fn behind(alloc: Global, p: &Placed) -> Result<Vec<u32>, AllocError>
    requires { p.now.pc + p.now.instr.len ≤ 65535 }
    ensures { IfOk result (λ places. places.items ≡ behind p.now) }
{
    let mut places = Vec::new(alloc);
    if goes_behind(action_of(&p.instr)) {
        places.push(p.pc + p.instr.len)?;
    }
    Ok(places)
}

/// The numbers in rising order, each once.
pub fn rising(mut numbers: Vec<u32>) -> Sequence<u32>
    ensures { result ≡ rising numbers.items }
{
    numbers.sort_unstable();
    numbers.dedup();
    Sequence::from(numbers)
}

/// The places of the instructions that can come next, in rising order: behind the instruction, and where it can jump
/// to.
#[tactic(auto, unfolding(crate::specs::Successors::successors_of))]
pub fn successors(alloc: Global, code: &[u8], p: &Placed) -> Result<Sequence<u32>, AllocError>
    requires small { length code.now ≤ 65535 }
    requires stands { instr_at code.now p.now.pc ≡ Ok p.now.instr }
    requires inside { p.now.pc + p.now.instr.len ≤ length code.now }
    requires long { 1 ≤ p.now.instr.len }
    ensures { IfOk result (λ ss. ss ≡ successors_of code.now p.now) }
{
    let mut places = behind(alloc, p)?;
    let far = distances(alloc, code, p)?;
    add_places(p.pc, far.as_slice(), &mut places)?;
    Ok(rising(places))
}

// The instruction with its successors.
fn instruction(alloc: Global, code: &[u8], p: &Placed) -> Result<Instruction, AllocError>
    requires small { length code.now ≤ 65535 }
    requires stands { instr_at code.now p.now.pc ≡ Ok p.now.instr }
    requires inside { p.now.pc + p.now.instr.len ≤ length code.now }
    requires long { 1 ≤ p.now.instr.len }
    ensures { IfOk result (λ i. i ≡ instruction_of code.now p.now) }
{
    let successors = successors(alloc, code, p)?;
    Ok(Instruction {
        pc: p.pc,
        instr: p.instr,
        successors,
    })
}

/// All instructions of the code with their successors, in order.
pub fn instructions(alloc: Global, code: &[u8]) -> Result<Vec<Instruction>, AllocError>
    requires { length code.now ≤ 65535 }
    ensures { IfOk result (λ is. is.items ≡ instructions_of code.now) }
{
    code_is_laid_out();
    let placement = placed(alloc, code)?;
    let mut found = Vec::new(alloc);
    for p in placement.instructions.as_slice() {
        found.push(instruction(alloc, code, p)?)?;
    }
    Ok(found)
}

// ---- jumps that lead to no instruction

// Whether the place so far from a pc is marked.
fn is_marked(places: &Places, pc: u32, distance: i32) -> bool
    requires { pc ≤ 65535 }
    ensures { result ≡ is_marked_at places.now (pos pc +ℤ distance) }
{
    match pc.checked_add_signed(distance) {
        Some(place) => places.has(place as usize),
        None => false,
    }
}

// Whether one of the places so far from a pc isn't marked.
fn is_one_unmarked(places: &Places, pc: u32, far: &[i32]) -> bool
    requires { pc ≤ 65535 }
    ensures { result ≡ list_any (λ d. not (is_marked_at places.now (pos pc +ℤ d))) far.now }
{
    far.iter().any(|distance| !is_marked(places, pc, *distance))
}

/// Whether a jump of the instruction leads to a place where none begins. The places are those where one does.
pub fn has_bad_target(
    alloc: Global,
    code: &[u8],
    p: &Placed,
    places: &Places,
) -> Result<bool, AllocError>
    requires small { length code.now ≤ 65535 }
    requires stands { instr_at code.now p.now.pc ≡ Ok p.now.instr }
    requires inside { p.now.pc < length code.now }
    requires places { ArePlaces (placed code.now) places.now }
    ensures { IfOk result (λ is_bad. is_bad ≡ has_bad_target code.now p.now) }
{
    let far = distances(alloc, code, p)?;
    Ok(is_one_unmarked(places, p.pc, far.as_slice()))
}
