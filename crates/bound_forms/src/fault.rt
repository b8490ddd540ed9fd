ghost use Rattle.std.specs.Prelude.{◌≡◌};
ghost use Rattle.bound_forms.specs.declared.fault.BoundFault.TheVariants as faults;

use std::alloc::{AllocError, AllocFailed};

/// Why a bound's normal form isn't made.
#[derive(Clone, Copy, Debug, PartialEq, Eq)]
pub enum BoundFault {
    /// A form, or an operand of a maximum in it, has more than 65,536 monomials.
    Monomials,
    /// A coefficient or a divisor of a form is past 2^127 - 1.
    Coefficient,
    /// Memory ran out.
    Memory,
}

impl From<AllocError> for BoundFault {
    ghost from_gives = { λ _ e. e ≡ faults.Memory };

    fn from(_error: AllocError) -> BoundFault {
        BoundFault::Memory
    }
}

impl<T: Drop> From<AllocFailed<T>> for BoundFault {
    ghost from_gives = { λ _ e. e ≡ faults.Memory };

    fn from(_error: AllocFailed<T>) -> BoundFault {
        BoundFault::Memory
    }
}
