//! What is known of frames at one point of the code.
ghost use Rattle.std.specs.Prelude.{◌≡◌, IfOk};
ghost use Rattle.kind_frames.specs.Frames.{AreAlike, frame_below, frames_joined, fact_below, facts_joined};

use crate::slots::Slots;
use fix_engine::Lattice;
use std::alloc::AllocError;

/// Frames of one height: how many words the operand stack has, less than 0 where more were popped than there are, and the
/// kind of each slot, the locals first and then the operand stack from the bottom.
#[derive(Drop)]
pub struct KindFrame {
    pub height: i64,
    pub slots: Slots,
}

/// What is known of frames at a point.
#[derive(Drop)]
pub enum KindFact {
    /// None comes there.
    Unreached,
    Known(KindFrame),
    /// Frames of different heights come there.
    Mixed,
}

fn copy_of(frame: &KindFrame) -> Result<KindFrame, AllocError>
    ensures { IfOk result (λ copy. copy ≡ frame.now) }
{
    Ok(KindFrame {
        height: frame.height,
        slots: frame.slots.copy()?,
    })
}

fn frame_below(a: &KindFrame, b: &KindFrame) -> bool
    ensures { result ≡ frame_below a.now b.now }
{
    a.height == b.height && a.slots.are_below(&b.slots)
}

fn frames_joined(a: &KindFrame, b: &KindFrame) -> Result<KindFact, AllocError>
    ensures { IfOk result (λ fact. fact ≡ frames_joined a.now b.now) }
{
    if a.height != b.height {
        return Ok(KindFact::Mixed);
    }
    Ok(KindFact::Known(KindFrame {
        height: a.height,
        slots: a.slots.joined(&b.slots)?,
    }))
}

fn is_below(a: &KindFact, b: &KindFact) -> bool
    ensures { result ≡ fact_below a.now b.now }
{
    match (a, b) {
        (KindFact::Unreached, _) | (_, KindFact::Mixed) => true,
        (KindFact::Known(a), KindFact::Known(b)) => frame_below(a, b),
        _ => false,
    }
}

fn joined(a: &KindFact, b: &KindFact) -> Result<KindFact, AllocError>
    ensures { IfOk result (λ fact. fact ≡ facts_joined a.now b.now) }
{
    match (a, b) {
        (KindFact::Known(a), KindFact::Known(b)) => frames_joined(a, b),
        (KindFact::Unreached, KindFact::Known(frame))
        | (KindFact::Known(frame), KindFact::Unreached) => { Ok(KindFact::Known(copy_of(frame)?)) }
        (KindFact::Unreached, KindFact::Unreached) => Ok(KindFact::Unreached),
        _ => Ok(KindFact::Mixed),
    }
}

impl Lattice for KindFact {
    ghost use Rattle.kind_frames.specs.Frames.{kind_order};

    ghost order = { kind_order };

    fn leq(&self, other: &Self) -> bool {
        is_below(self, other)
    }

    fn join(&mut self, other: &Self) -> Result<bool, AllocError> {
        if is_below(other, self) {
            return Ok(false);
        }
        *self = joined(self, other)?;
        Ok(true)
    }
}
