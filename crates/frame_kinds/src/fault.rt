ghost use Rattle.std.specs.Prelude.{◌≡◌};
ghost use Rattle.frame_kinds.specs.declared.fault.KindFault.TheVariants as faults;

use kind_frames::KindFact;
use std::alloc::AllocError;

/// Why there are no kinds of a method.
#[derive(Drop)]
pub enum KindFault {
    /// The kinds disagree at this place first: frames of different heights come to the instruction there, or nothing is
    /// known of a slot that it uses. With the first two frames that differ on edges into the place, or twice the frame
    /// there.
    Disagree {
        pc: u32,
        first: KindFact,
        second: KindFact,
    },
    /// Memory ran out.
    Memory,
}

impl From<AllocError> for KindFault {
    ghost from_gives = { λ _ e. e ≡ faults.Memory };

    fn from(_e: AllocError) -> KindFault {
        KindFault::Memory
    }
}
