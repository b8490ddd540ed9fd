//! Marks of the places of code.

ghost use Rattle.std.specs.Prelude.{◌≡◌, ◌<◌, ◌||◌, ◌==◌, nat_eq, ℕ, false, true, All, length, replicate, slice_index_or, slice_set, IfOk};
ghost use Rattle.std.specs.List.{list_any};
ghost use Rattle.code_blocks.specs.Blocks.{begins, starts};
ghost use Rattle.code_blocks.specs.Placing.{ArePlaces};

use crate::following::is_end;
use crate::instruction::{Instruction, Placed};
use op_table::action_of;
use std::alloc::{AllocError, Global};
use std::marker::Model;

/// Some of the places of code of a certain length. Contracts see a mark for each of its bytes.
#[derive(Drop)]
pub struct Places {
    marks: Vec<bool>,
}

impl Model for Places {
    ghost use Rattle.std.specs.Prelude.{List, Bool};

    ghost Value = { List Bool };

    ghost view = { λ p. p.marks.items };
}

impl Places {
    // No place.
    fn none(alloc: Global, size: usize) -> Result<Self, AllocError>
        ensures { IfOk result (λ p. p ≡ replicate size false) }
    {
        Ok(Places {
            marks: vec![in alloc; false; size]?,
        })
    }

    // One place more, where it is one of the code.
    fn mark(&mut self, x: usize)
        ensures count { length self.new ≡ length self.old }
        ensures marked { (y : ℕ) → y < length self.old → slice_index_or self.new y false ≡ ((y == x) || slice_index_or self.old y false) }
    {
        if x < self.marks.len() {
            self.marks[x] = true;
        }
    }

    /// The places of these instructions.
    pub fn of(alloc: Global, size: usize, instructions: &[Placed]) -> Result<Self, AllocError>
        requires { All (λ p. p.pc < size) instructions.now }
        ensures { IfOk result (λ places. ArePlaces instructions.now places) }
    {
        let mut places = Places::none(alloc, size)?;
        for p in instructions {
            places.mark(p.pc as usize);
        }
        Ok(places)
    }

    /// Whether this is one of the places.
    pub fn has(&self, x: usize) -> bool
        ensures { result ≡ slice_index_or self.now x false }
    {
        match self.marks.get(x) {
            Some(mark) => *mark,
            None => false,
        }
    }
}

// Marks the places at which blocks begin because of the instruction.
fn mark_starts(places: &mut Places, i: &Instruction)
    ensures count { length places.new ≡ length places.old }
    ensures marked { (y : ℕ) → y < length places.old → slice_index_or places.new y false ≡ (starts y i.now || slice_index_or places.old y false) }
{
    if !is_end(action_of(&i.instr)) {
        return;
    }
    places.mark(i.pc as usize + i.instr.len as usize);
    mark_all(places, i.successors.as_slice());
}

// Marks these places.
fn mark_all(places: &mut Places, more: &[u32])
    ensures count { length places.new ≡ length places.old }
    ensures marked { (y : ℕ) → y < length places.old → slice_index_or places.new y false ≡ (list_any (nat_eq y) more.now || slice_index_or places.old y false) }
{
    for x in more {
        places.mark(*x as usize);
    }
}

/// The places at which blocks begin.
pub(crate) fn begins(
    alloc: Global,
    size: usize,
    instructions: &[Instruction],
) -> Result<Places, AllocError>
    ensures { IfOk result (λ places. (x : ℕ) → x < size → slice_index_or places x false ≡ begins instructions.now x) }
{
    let mut places = Places::none(alloc, size)?;
    places.mark(0);
    for i in instructions {
        mark_starts(&mut places, i);
    }
    Ok(places)
}
