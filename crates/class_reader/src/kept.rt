//! The first of the faults that were met so far.

ghost use Rattle.std.specs.Prelude.{◌≡◌, Option, Some, None};
ghost use Rattle.class_reader.specs.declared.fault.ClassFault.{ClassFault};
ghost use Rattle.class_reader.specs.declared.kept.Cut.TheVariants.{Short as TooShort, Memory};
ghost use Rattle.class_reader.specs.Faults.{noted, first_with, place_of};
ghost use Rattle.class_reader.specs.ClassReading.{fault_if};

use crate::fault::ClassFault;
use class_pool::{PoolFault, Short};
use std::alloc::{AllocError, AllocFailed};
use std::marker::Model;

/// Why reading stopped.
#[derive(Clone, Copy)]
pub(crate) enum Cut {
    /// Too few bytes are left.
    Short,
    /// Memory ran out.
    Memory,
}

impl From<Short> for Cut {
    ghost from_gives = { λ _ e. e ≡ TooShort };

    fn from(_short: Short) -> Cut {
        Cut::Short
    }
}

impl From<AllocError> for Cut {
    ghost from_gives = { λ _ e. e ≡ Memory };

    fn from(_error: AllocError) -> Cut {
        Cut::Memory
    }
}

impl<T: Drop> From<AllocFailed<T>> for Cut {
    ghost from_gives = { λ _ e. e ≡ Memory };

    fn from(_error: AllocFailed<T>) -> Cut {
        Cut::Memory
    }
}

/// The first fault so far, if any was met. Contracts see it as that.
#[derive(Drop)]
pub(crate) struct Kept {
    first: Option<ClassFault>,
}

impl Model for Kept {
    ghost use Rattle.std.specs.Prelude.{Option};
    ghost use Rattle.class_reader.specs.declared.fault.ClassFault.{ClassFault};

    ghost Value = { Option ClassFault };

    ghost view = { λ k. k.first };
}

impl Kept {
    /// None.
    pub(crate) fn new() -> Kept
        ensures { result ≡ None }
    {
        Kept { first: None }
    }

    /// The same fault.
    pub(crate) fn copy(&self) -> Kept
        ensures { result ≡ self.now }
    {
        Kept { first: self.first }
    }

    /// The first fault.
    pub(crate) fn first(&self) -> Option<ClassFault>
        ensures { result ≡ self.now }
    {
        self.first
    }

    /// The first of the faults so far and of one that is met now.
    pub(crate) fn first_or(&self, fault: ClassFault) -> ClassFault
        ensures { noted self.now fault ≡ Some result }
    {
        match self.first {
            Some(kept) => {
                if fault.place() < kept.place() {
                    fault
                } else {
                    kept
                }
            }
            None => fault,
        }
    }

    /// Keeps a fault that is met now where it stands before the one that was kept.
    pub(crate) fn note(&mut self, fault: ClassFault)
        ensures { self.new ≡ noted self.old fault }
    {
        self.first = Some(self.first_or(fault));
    }

    /// The same, where the test holds.
    #[tactic(auto, unfolding(crate::specs::Faults::first_with))]
    pub(crate) fn note_if(&mut self, is_met: bool, fault: ClassFault)
        ensures { self.new ≡ first_with self.old (fault_if is_met fault) }
    {
        if is_met {
            self.note(fault);
        }
    }
}
