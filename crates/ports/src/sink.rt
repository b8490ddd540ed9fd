ghost use Rattle.std.specs.Prelude.{◌≡◌, ◌≤◌, OnOk, IsErrOf};
ghost use Rattle.ports.specs.Shelf.{Rises};
ghost use Rattle.ports.specs.Sink.{SinkState, Appends, AppendsPrefix, IsCalledOnce};
ghost use Rattle.ports.specs.declared.sink.Put.TheVariants.{Memory};

use std::alloc::{AllocError, AllocFailed};

/// Why a piece was not put.
#[derive(Clone, Copy)]
pub enum Put {
    /// The outside failed, perhaps after it took the front of the piece.
    Failed,
    /// Memory ran out.
    Memory,
}

impl From<AllocError> for Put {
    ghost from_gives = { λ _ e. e ≡ Memory };

    fn from(_e: AllocError) -> Put {
        Put::Memory
    }
}

impl<T: Drop> From<AllocFailed<T>> for Put {
    ghost from_gives = { λ _ e. e ≡ Memory };

    fn from(_e: AllocFailed<T>) -> Put {
        Put::Memory
    }
}

/// Where the report goes.
pub trait Sink {
    /// What it has, where it tells that, and how often it was called and failed so far.
    ghost meaning: { Self → SinkState };

    /// Appends the piece.
    fn put(&mut self, piece: &[u8]) -> Result<(), Put>
        // The call is counted, whatever comes of it.
        ensures calls { IsCalledOnce (meaning self.old) (meaning self.new) }
        ensures ok { OnOk result (Appends (meaning self.old).content piece.now (meaning self.new).content) }

        // It failed only where the count of faults rose; the front of the piece may have been taken.
        ensures failed { IsErrOf result Put.Failed → Rises (meaning self.old).faults (meaning self.new).faults }
        ensures prefix { IsErrOf result Put.Failed → AppendsPrefix (meaning self.old).content piece.now (meaning self.new).content }
        ensures memory { IsErrOf result Put.Memory → (meaning self.new).content ≡ (meaning self.old).content }

        // The count of faults never falls, and stays where the call doesn't fail.
        ensures faults { (meaning self.old).faults ≤ (meaning self.new).faults }
        ensures only_failed { (IsErrOf result Put.Failed → ⊥) → (meaning self.new).faults ≡ (meaning self.old).faults };
}
