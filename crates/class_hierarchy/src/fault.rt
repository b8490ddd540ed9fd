ghost use Rattle.std.specs.Prelude.{◌≡◌};
ghost use Rattle.class_hierarchy.specs.declared.fault.WorldFault.TheVariants as fault;

use class_pool::Text;
use std::alloc::{AllocError, AllocFailed};

/// Why classes are no world.
#[derive(Drop)]
pub enum WorldFault {
    /// Another class before this one has its name.
    Twice { name: Text },
    /// The class names a superclass or a superinterface that isn't there.
    MissingSuper { class: Text, name: Text },
    /// The class names an interface as its superclass, or a class that is none as a superinterface.
    WrongSuper { class: Text, name: Text },
    /// One or more names of superclasses and superinterfaces lead from the class back to itself.
    SuperCycle { name: Text },
    /// The superclass of the class is final (JVMS 4.1).
    FinalSuper { class: Text, name: Text },
    /// Memory ran out.
    Memory,
}

impl From<AllocError> for WorldFault {
    ghost from_gives = { λ _ e. e ≡ fault.Memory };

    fn from(_error: AllocError) -> WorldFault {
        WorldFault::Memory
    }
}

impl<T: Drop> From<AllocFailed<T>> for WorldFault {
    ghost from_gives = { λ _ e. e ≡ fault.Memory };

    fn from(_error: AllocFailed<T>) -> WorldFault {
        WorldFault::Memory
    }
}
