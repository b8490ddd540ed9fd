ghost use Rattle.std.specs.Prelude.{◌≡◌};
ghost use Rattle.class_pool.specs.declared.fault.PoolFault.TheVariants as fault;

use crate::cursor::Short;
use std::alloc::{AllocError, AllocFailed};

/// Why bytes are no constant pool. Each place `at` is an offset from the file's first byte.
#[derive(Clone, Copy, Debug)]
pub enum PoolFault {
    /// Too few bytes are left. The place is where the bytes end.
    Short { at: u32 },
    /// The tag is none of JVMS 4.4, or is one of a Long or a Double at the last index. The place is the tag's.
    BadTag { at: u32, tag: u8 },
    /// An entry names this index, and what is there isn't of the kind that it must name. The place is
    /// that of the entry's tag.
    BadIndex { at: u32, index: u16 },
    /// An entry's text is no modified UTF-8 (JVMS 4.4.7). The place is that of the entry's tag.
    BadUtf8 { at: u32 },
    /// Memory ran out.
    Memory,
}

impl From<Short> for PoolFault {
    ghost from_gives = { λ short e. e ≡ fault.Short short.at };

    fn from(short: Short) -> PoolFault {
        PoolFault::Short { at: short.at }
    }
}

impl From<AllocError> for PoolFault {
    ghost from_gives = { λ _ e. e ≡ fault.Memory };

    fn from(_error: AllocError) -> PoolFault {
        PoolFault::Memory
    }
}

impl<T: Drop> From<AllocFailed<T>> for PoolFault {
    ghost from_gives = { λ _ e. e ≡ fault.Memory };

    fn from(_error: AllocFailed<T>) -> PoolFault {
        PoolFault::Memory
    }
}
