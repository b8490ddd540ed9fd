//! Why a class can't be written.

ghost use Rattle.std.specs.Prelude.{◌≡◌};
ghost use Rattle.class_writer.specs.declared.fault.WriteFault.TheVariants.{Memory};

use std::alloc::AllocError;

/// A count of a class file that is written in two bytes (JVMS 4.1, 4.7.3).
#[derive(Clone, Copy, Debug)]
pub enum What {
    /// The count of the constant pool, which is one more than the indices that it has.
    Entries,
    /// The direct superinterfaces.
    Interfaces,
    /// The fields that the class declares.
    Fields,
    /// The methods that the class declares.
    Methods,
    /// The entries of the exception table of a method.
    Handlers,
}

/// Why a class can't be written.
#[derive(Clone, Copy, Debug)]
pub enum WriteFault {
    /// There are more than the file can count.
    TooMany {
        /// What there are too many of.
        what: What,
    },
    /// Memory ran out, or the file would have 2^32 bytes or more.
    Memory,
}

impl From<AllocError> for WriteFault {
    ghost from_gives = { λ _ fault. fault ≡ Memory };

    fn from(_error: AllocError) -> WriteFault {
        WriteFault::Memory
    }
}
