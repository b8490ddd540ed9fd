ghost use Rattle.std.specs.Prelude.{◌≡◌};
ghost use Rattle.world.specs.declared.fault.ResolveFault.TheVariants as resolve;

use std::alloc::{AllocError, AllocFailed};

/// Why a name means no member, or a call no method. Of several the first in this order is answered.
#[derive(Clone, Copy, PartialEq, Eq)]
pub enum ResolveFault {
    /// There is no class of the name.
    MissingClass,
    /// There is no member of the name and the descriptor.
    MissingMember,
    /// Several methods of superinterfaces are meant.
    Ambiguous,
    /// A method for its package alone meets one of the same name and descriptor in another package.
    PackageOverride,
    /// The method is static or abstract.
    AbstractTarget,
    /// The receiver is no instance of the class that declares the method.
    NotInstance,
    /// Memory ran out.
    Memory,
}

impl From<AllocError> for ResolveFault {
    ghost from_gives = { λ _ e. e ≡ resolve.Memory };

    fn from(_error: AllocError) -> ResolveFault {
        ResolveFault::Memory
    }
}

impl<T: Drop> From<AllocFailed<T>> for ResolveFault {
    ghost from_gives = { λ _ e. e ≡ resolve.Memory };

    fn from(_error: AllocFailed<T>) -> ResolveFault {
        ResolveFault::Memory
    }
}
