//! The kinds of a frame's slots.
ghost use Rattle.std.specs.Prelude.{◌≡◌, IfOk};
ghost use Rattle.kind_frames.specs.Frames.{all_below, all_joined};

use crate::kinds::{is_below, joined};
use slot_facts::Kind;
use std::alloc::{AllocError, Global};
use std::marker::Model;

/// The kinds of slots, in order. Contracts see the list.
#[derive(Drop)]
pub struct Slots {
    kinds: Vec<Kind>,
}

impl Model for Slots {
    ghost use Rattle.std.specs.Prelude.{List};
    ghost use Rattle.slot_facts.specs.declared.kind.Kind.{Kind};

    ghost Value = { List Kind };

    ghost view = { λ s. s.kinds.items };
}

fn copied(alloc: Global, kinds: &[Kind]) -> Result<Vec<Kind>, AllocError>
    ensures { IfOk result (λ copy. copy.items ≡ kinds.now) }
{
    let mut copy = Vec::new(alloc);
    for kind in kinds {
        copy.push(kind.share()?)?;
    }
    Ok(copy)
}

fn joined_each(alloc: Global, some: &[Kind], others: &[Kind]) -> Result<Vec<Kind>, AllocError>
    ensures { IfOk result (λ kinds. kinds.items ≡ all_joined some.now others.now) }
{
    let mut kinds = Vec::new(alloc);
    for (a, b) in some.iter().zip(others.iter()) {
        kinds.push(joined(a, b)?)?;
    }
    Ok(kinds)
}

impl Slots {
    /// These kinds.
    pub fn of(kinds: Vec<Kind>) -> Self
        ensures { result ≡ kinds.items }
    {
        Slots { kinds }
    }

    /// The kinds.
    pub fn as_slice(&self) -> &[Kind]
        ensures { result.now ≡ self.now }
    {
        self.kinds.as_slice()
    }

    /// The same kinds.
    pub fn copy(&self) -> Result<Self, AllocError>
        ensures { IfOk result (λ copy. copy ≡ self.now) }
    {
        let kinds = copied(*self.kinds.allocator(), self.as_slice())?;
        Ok(Slots { kinds })
    }

    /// Whether each kind lies below the other at its place.
    pub fn are_below(&self, others: &Self) -> bool
        ensures { result ≡ all_below self.now others.now }
    {
        let mut pairs = self.kinds.iter().zip(others.kinds.iter());
        pairs.all(|(a, b)| is_below(a, b))
    }

    /// What each two kinds have in common.
    pub fn joined(&self, others: &Self) -> Result<Self, AllocError>
        ensures { IfOk result (λ kinds. kinds ≡ all_joined self.now others.now) }
    {
        let kinds = joined_each(*self.kinds.allocator(), self.as_slice(), others.as_slice())?;
        Ok(Slots { kinds })
    }
}
