ghost use Rattle.std.specs.Prelude.{◌≡◌};
ghost use Rattle.call_costs.specs.declared.fault.CostFault.TheVariants as fault;

use std::alloc::{AllocError, AllocFailed};

/// Why there are no costs of a program's methods.
#[derive(Clone, Copy)]
pub enum CostFault {
    /// A method costs more than 2^127 - 1.
    TooGreat,
    /// Memory ran out.
    Memory,
}

impl From<AllocError> for CostFault {
    ghost from_gives = { λ _ e. e ≡ fault.Memory };

    fn from(_error: AllocError) -> CostFault {
        CostFault::Memory
    }
}
