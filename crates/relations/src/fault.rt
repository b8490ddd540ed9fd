ghost use Rattle.std.specs.Prelude.{◌≡◌};
ghost use Rattle.relations.specs.declared.fault.RelFault.TheVariants as faults;

use std::alloc::{AllocError, AllocFailed};

/// Why a node or a rule isn't added.
#[derive(Clone, Copy)]
pub enum RelFault {
    /// A call has another number of arguments than its node has sizes.
    Arity,
    /// A node isn't held, a row or an argument names a variable that isn't bound, or a variable that is bound is
    /// made again.
    Range,
    /// The node would have more than 32 sizes.
    TooManySizes,
    /// The items and the coefficients other than 0 would be more than 16,777,216 in all.
    TooManyTerms,
    /// Memory ran out.
    Memory,
}

impl From<AllocError> for RelFault {
    ghost from_gives = { λ _ e. e ≡ faults.Memory };

    fn from(_error: AllocError) -> RelFault {
        RelFault::Memory
    }
}

impl<T: Drop> From<AllocFailed<T>> for RelFault {
    ghost from_gives = { λ _ e. e ≡ faults.Memory };

    fn from(_error: AllocFailed<T>) -> RelFault {
        RelFault::Memory
    }
}
