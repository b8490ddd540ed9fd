ghost use Rattle.std.specs.Prelude.{◌≡◌};
ghost use Rattle.steps.specs.declared.halt.Halt.TheVariants as halts;

use frames::Failure;
use std::alloc::AllocError;

// Why an instruction doesn't do what it is to do, or memory ran out before anything was done.
#[derive(Clone, Copy)]
pub(crate) enum Halt {
    Fails(Failure),
    Memory,
}

impl From<AllocError> for Halt {
    ghost from_gives = { λ _ halt. halt ≡ halts.Memory };

    fn from(_error: AllocError) -> Halt {
        Halt::Memory
    }
}
