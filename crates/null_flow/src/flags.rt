//! Which slots hold no null.
ghost use Rattle.std.specs.Prelude.{◌≡◌, IfOk};
ghost use Rattle.null_flow.specs.Facts.{all_below, all_joined};

use std::alloc::{AllocError, Global};
use std::marker::Model;

/// For each slot of a frame whether it holds no null: the locals first, and then the operand stack from the bottom. Contracts
/// see the list.
#[derive(Drop)]
pub struct Flags {
    flags: Vec<bool>,
}

impl Model for Flags {
    ghost use Rattle.std.specs.Prelude.{List, Bool};

    ghost Value = { List Bool };

    ghost view = { λ s. s.flags.items };
}

fn copied(alloc: Global, flags: &[bool]) -> Result<Vec<bool>, AllocError>
    ensures { IfOk result (λ copy. copy.items ≡ flags.now) }
{
    let mut copy = Vec::new(alloc);
    for flag in flags {
        copy.push(*flag)?;
    }
    Ok(copy)
}

fn joined_each(alloc: Global, some: &[bool], others: &[bool]) -> Result<Vec<bool>, AllocError>
    ensures { IfOk result (λ flags. flags.items ≡ all_joined some.now others.now) }
{
    let mut flags = Vec::new(alloc);
    for (a, b) in some.iter().zip(others.iter()) {
        flags.push(*a && *b)?;
    }
    Ok(flags)
}

impl Flags {
    /// These flags.
    pub fn of(flags: Vec<bool>) -> Self
        ensures { result ≡ flags.items }
    {
        Flags { flags }
    }

    /// The flags.
    pub fn as_slice(&self) -> &[bool]
        ensures { result.now ≡ self.now }
    {
        self.flags.as_slice()
    }

    /// The same flags.
    pub fn copy(&self) -> Result<Self, AllocError>
        ensures { IfOk result (λ copy. copy ≡ self.now) }
    {
        let flags = copied(*self.flags.allocator(), self.as_slice())?;
        Ok(Flags { flags })
    }

    /// Whether each slot that holds no null by the others holds none by these.
    pub fn are_below(&self, others: &Self) -> bool
        ensures { result ≡ all_below self.now others.now }
    {
        let mut pairs = self.flags.iter().zip(others.flags.iter());
        pairs.all(|(a, b)| *a || !*b)
    }

    /// Which slots hold no null by both.
    pub fn joined(&self, others: &Self) -> Result<Self, AllocError>
        ensures { IfOk result (λ flags. flags ≡ all_joined self.now others.now) }
    {
        let flags = joined_each(*self.flags.allocator(), self.as_slice(), others.as_slice())?;
        Ok(Flags { flags })
    }
}
