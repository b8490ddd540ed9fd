//! What is known of null in frames at one point of the code.
ghost use Rattle.std.specs.Prelude.{◌≡◌, IfOk};
ghost use Rattle.null_flow.specs.Facts.{fact_below, facts_joined, is_non_null};

use crate::flags::Flags;
use fix_engine::Lattice;
use std::alloc::AllocError;

/// What is known of frames at a point.
#[derive(Drop)]
pub enum NullFact {
    /// None comes there.
    Unreached,
    /// Which slots hold no null, of each frame that comes there.
    Known(Flags),
}

impl NullFact {
    /// Whether frames come there, and the slot holds no null in any of them.
    pub fn is_non_null(&self, slot: u32) -> bool
        ensures { result ≡ is_non_null self.now slot }
    {
        match self {
            NullFact::Unreached => false,
            NullFact::Known(flags) => match flags.as_slice().get(slot as usize) {
                Some(flag) => *flag,
                None => false,
            },
        }
    }
}

fn is_below(a: &NullFact, b: &NullFact) -> bool
    ensures { result ≡ fact_below a.now b.now }
{
    match (a, b) {
        (NullFact::Unreached, _) => true,
        (NullFact::Known(a), NullFact::Known(b)) => a.are_below(b),
        _ => false,
    }
}

fn joined(a: &NullFact, b: &NullFact) -> Result<NullFact, AllocError>
    ensures { IfOk result (λ fact. fact ≡ facts_joined a.now b.now) }
{
    match (a, b) {
        (NullFact::Known(a), NullFact::Known(b)) => Ok(NullFact::Known(a.joined(b)?)),
        (NullFact::Unreached, NullFact::Known(flags))
        | (NullFact::Known(flags), NullFact::Unreached) => Ok(NullFact::Known(flags.copy()?)),
        _ => Ok(NullFact::Unreached),
    }
}

impl Lattice for NullFact {
    ghost use Rattle.null_flow.specs.Facts.{null_order};

    ghost order = { null_order };

    fn leq(&self, other: &Self) -> bool {
        is_below(self, other)
    }

    fn join(&mut self, other: &Self) -> Result<bool, AllocError> {
        if is_below(other, self) {
            return Ok(false);
        }
        *self = joined(self, other)?;
        Ok(true)
    }
}
