ghost use Rattle.std.specs.Prelude.{◌≡◌};
ghost use Rattle.lin_rows.specs.declared.fault.CombFault.TheVariants as faults;

use q128::TooWide;
use std::alloc::AllocError;

/// Why rows could not be summed.
#[derive(Debug, Drop)]
pub enum CombFault {
    Memory,
    TooWide(TooWide),
}

impl From<AllocError> for CombFault {
    ghost from_gives = { λ _ e. e ≡ faults.Memory };

    fn from(_e: AllocError) -> CombFault {
        CombFault::Memory
    }
}

impl From<TooWide> for CombFault {
    ghost from_gives = { λ wide e. e ≡ faults.TooWide wide };

    fn from(wide: TooWide) -> CombFault {
        CombFault::TooWide(wide)
    }
}
