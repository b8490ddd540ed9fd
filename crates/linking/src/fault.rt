ghost use Rattle.std.specs.Prelude.{◌≡◌};
ghost use Rattle.linking.specs.declared.fault.LinkFault.TheVariants as link;
ghost use Rattle.linking.specs.Told.{link_fault};

use op_table::Construct;
use std::alloc::{AllocError, AllocFailed};
use world::ResolveFault;

/// Why it isn't told what an instruction means.
#[derive(Clone, Copy)]
pub enum LinkFault {
    /// What stands against the instruction.
    Against(Construct),
    /// Memory ran out.
    Memory,
}

impl From<AllocError> for LinkFault {
    ghost from_gives = { λ _ e. e ≡ link.Memory };

    fn from(_error: AllocError) -> LinkFault {
        LinkFault::Memory
    }
}

impl<T: Drop> From<AllocFailed<T>> for LinkFault {
    ghost from_gives = { λ _ e. e ≡ link.Memory };

    fn from(_error: AllocFailed<T>) -> LinkFault {
        LinkFault::Memory
    }
}

impl From<ResolveFault> for LinkFault {
    ghost from_gives = { λ fault e. e ≡ link_fault fault };

    fn from(fault: ResolveFault) -> LinkFault {
        match fault {
            ResolveFault::MissingClass => LinkFault::Against(Construct::MissingClass),
            ResolveFault::MissingMember => LinkFault::Against(Construct::MissingMember),
            ResolveFault::Ambiguous => LinkFault::Against(Construct::Ambiguous),
            ResolveFault::PackageOverride => LinkFault::Against(Construct::PackageOverride),
            ResolveFault::AbstractTarget => LinkFault::Against(Construct::AbstractTarget),
            ResolveFault::NotInstance => LinkFault::Against(Construct::Incompatible),
            ResolveFault::Memory => LinkFault::Memory,
        }
    }
}
