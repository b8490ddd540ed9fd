ghost use Rattle.std.specs.Prelude.{◌≡◌};
ghost use Rattle.class_reader.specs.declared.fault.ClassFault.TheVariants as fault;
ghost use Rattle.class_pool.specs.FirstFault.{place_of as place_in_pool};
ghost use Rattle.class_reader.specs.Faults.{fault_of, place_of};

use class_pool::{PoolFault, Short};
use std::alloc::{AllocError, AllocFailed};

/// Why bytes are no class file. Each place `at` is an offset from the file's first byte.
#[derive(Clone, Copy, Debug)]
pub enum ClassFault {
    /// The first four bytes aren't CAFEBABE (JVMS 4.1).
    Magic { at: u32 },
    /// The major version isn't one of 45 to 65.
    Version { at: u32 },
    /// Too few bytes are left. The place is where the bytes end.
    Short { at: u32 },
    /// A fault of the constant pool, or an index behind it whose entry isn't of the kind that it must name;
    /// the place of the latter is that of the index.
    Pool(PoolFault),
    /// A descriptor isn't in the grammar of JVMS 4.3, has over 255 dimensions, or its parameters take over 255
    /// words. The place is that of the descriptor's index.
    BadDesc { at: u32 },
    /// A method is without code and neither native nor abstract (the place is that of its flags), or an attribute
    /// Code stands where none may, or again, or isn't filled by its parts, or has no instructions or over 65,535
    /// bytes of them (the place is that of its name's index; JVMS 4.7.3).
    BadCode { at: u32 },
    /// Another field or method of the class has this one's name and descriptor. The place is that of the flags of
    /// the later one.
    Repeated { at: u32 },
    /// The class is `java/lang/Object`, which is built in. The place is that of the index of this class.
    Reserved { at: u32 },
    /// Bytes stand behind the class. The place is that of the first of them.
    Trailing { at: u32 },
    /// Memory ran out.
    Memory,
}

impl ClassFault {
    /// The offset from the file's first byte; 0 where memory ran out.
    pub(crate) fn place(&self) -> u32
        ensures { result ≡ place_of self.now }
    {
        match self {
            ClassFault::Magic { at }
            | ClassFault::Version { at }
            | ClassFault::Short { at }
            | ClassFault::BadDesc { at }
            | ClassFault::BadCode { at }
            | ClassFault::Repeated { at }
            | ClassFault::Reserved { at }
            | ClassFault::Trailing { at } => *at,
            ClassFault::Pool(fault) => place_in_pool(fault),
            ClassFault::Memory => 0,
        }
    }
}

/// The place of a pool's fault.
fn place_in_pool(fault: &PoolFault) -> u32
    ensures { result ≡ place_in_pool fault.now }
{
    match fault {
        PoolFault::Short { at }
        | PoolFault::BadTag { at, .. }
        | PoolFault::BadIndex { at, .. }
        | PoolFault::BadUtf8 { at } => *at,
        PoolFault::Memory => 0,
    }
}

impl From<Short> for ClassFault {
    ghost from_gives = { λ short e. e ≡ fault.Short short.at };

    fn from(short: Short) -> ClassFault {
        ClassFault::Short { at: short.at }
    }
}

impl From<PoolFault> for ClassFault {
    ghost from_gives = { λ pool e. e ≡ fault_of pool };

    fn from(fault: PoolFault) -> ClassFault {
        match fault {
            PoolFault::Memory => ClassFault::Memory,
            fault => ClassFault::Pool(fault),
        }
    }
}

impl From<AllocError> for ClassFault {
    ghost from_gives = { λ _ e. e ≡ fault.Memory };

    fn from(_error: AllocError) -> ClassFault {
        ClassFault::Memory
    }
}

impl<T: Drop> From<AllocFailed<T>> for ClassFault {
    ghost from_gives = { λ _ e. e ≡ fault.Memory };

    fn from(_error: AllocFailed<T>) -> ClassFault {
        ClassFault::Memory
    }
}
