ghost use Rattle.std.specs.Prelude.{◌≡◌};
ghost use Rattle.cost_words.specs.declared.fault.WordFault.TheVariants.{Memory};

use std::alloc::{AllocError, AllocFailed};

/// What is wrong with a word.
#[derive(Clone, Copy)]
pub enum WordKind {
    /// There is no word at all.
    NoCommand,
    /// The first word is no command.
    UnknownCommand,
    /// A word is missing, or is empty where it may not be.
    Missing,
    /// A word too many, or an option that has no place here.
    Extra,
    /// The word names no method: see `read`.
    BadTarget,
    /// The word is no number in decimal without a sign and leading zeros, or one out of range.
    BadNumber,
}

/// Why the words were not read.
#[derive(Clone, Copy)]
pub enum WordFault {
    /// Memory ran out.
    Memory,
    /// The first word that is wrong, counted from 1: for one that is missing, the number of words plus 1.
    Wrong { kind: WordKind, index: u64 },
}

// The word with this index is wrong.
pub(crate) fn wrong(kind: WordKind, index: u64) -> WordFault
    ensures { result ≡ WordFault.Wrong kind index }
{
    WordFault::Wrong { kind, index }
}

impl From<AllocError> for WordFault {
    ghost from_gives = { λ _ e. e ≡ Memory };

    fn from(_e: AllocError) -> WordFault {
        WordFault::Memory
    }
}

impl<T: Drop> From<AllocFailed<T>> for WordFault {
    ghost from_gives = { λ _ e. e ≡ Memory };

    fn from(_e: AllocFailed<T>) -> WordFault {
        WordFault::Memory
    }
}
