ghost use Rattle.std.specs.Prelude.{◌≡◌};
ghost use Rattle.code_flow.specs.declared.fault.FlowFault.TheVariants as fault;

use op_table::Construct;
use std::alloc::{AllocError, AllocFailed};
use world::MemberId;

/// Why there is no program of a method.
#[derive(Clone, Copy)]
pub enum FlowFault {
    /// The class of the name isn't there, or it declares no such method, or one without code.
    NoMethod,
    /// The construct, which isn't analysed, stands at this place of the method's code, in bytes.
    Unsupported {
        method: MemberId,
        pc: u32,
        construct: Construct,
    },
    /// More than 4,096 methods are reached.
    TooManyMethods,
    /// Memory ran out.
    Memory,
}

impl From<AllocError> for FlowFault {
    ghost from_gives = { λ _ e. e ≡ fault.Memory };

    fn from(_error: AllocError) -> FlowFault {
        FlowFault::Memory
    }
}

impl<T: Drop> From<AllocFailed<T>> for FlowFault {
    ghost from_gives = { λ _ e. e ≡ fault.Memory };

    fn from(_error: AllocFailed<T>) -> FlowFault {
        FlowFault::Memory
    }
}
