ghost use Rattle.std.specs.Prelude.{◌≡◌, ◌==◌, ◌||◌, slice_index_or, false, map, IfOk};
ghost use Rattle.std.specs.List.{zip};
ghost use Rattle.flow_cases.specs.Slots.{is_marked};

use fix_engine::Lattice;
use std::alloc::{AllocError, Global};
use std::marker::Model;

/// For each slot whether it is marked.
#[derive(Drop)]
pub struct Slots {
    slots: Vec<bool>,
}

impl Model for Slots {
    ghost use Rattle.std.specs.Prelude.{List, Bool};

    ghost Value = { List Bool };

    ghost view = { λ s. s.slots.items };
}

impl Slots {
    /// These slots.
    pub fn of(slots: Vec<bool>) -> Self
        ensures { result ≡ slots.items }
    {
        Slots { slots }
    }

    /// The slots.
    pub fn as_slice(&self) -> &[bool]
        ensures { result.now ≡ self.now }
    {
        self.slots.as_slice()
    }

    /// Whether the slot is there and marked. No slot counts as marked.
    pub fn is_marked(&self, slot: Option<u32>) -> bool
        ensures { result ≡ is_marked slot self.now }
    {
        match slot {
            Some(slot) => self.slots.get(slot as usize).copied().unwrap_or(false),
            None => true,
        }
    }
}

/// What is marked in one of two lists.
fn marked_in_one(alloc: Global, some: &[bool], others: &[bool]) -> Result<Vec<bool>, AllocError>
    ensures { IfOk result (λ marks. marks.items ≡ map (λ p. p.0 || p.1) (zip some.now others.now)) }
{
    let pairs = some.iter().zip(others.iter());
    pairs.map(|(a, b)| *a || *b).collect(alloc)
}

/// The slots that are marked in one of two facts.
fn joined(alloc: Global, some: &Slots, others: &Slots) -> Result<Slots, AllocError>
    ensures { IfOk result (λ slots. slots ≡ map (λ p. p.0 || p.1) (zip some.now others.now)) }
{
    let marks = marked_in_one(alloc, some.as_slice(), others.as_slice())?;
    Ok(Slots::of(marks))
}

impl Lattice for Slots {
    ghost use Rattle.flow_cases.specs.Slots.{marks};

    ghost order = { marks };

    fn leq(&self, other: &Self) -> bool {
        let mut pairs = self.slots.iter().zip(other.slots.iter());
        pairs.all(|(a, b)| !*a || *b)
    }

    fn join(&mut self, other: &Self) -> Result<bool, AllocError> {
        if other.leq(self) {
            return Ok(false);
        }
        *self = joined(*self.slots.allocator(), self, other)?;
        Ok(true)
    }
}
