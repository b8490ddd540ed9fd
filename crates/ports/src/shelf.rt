ghost use Rattle.std.specs.Prelude.{◌≡◌, ◌≤◌, [], length, IfOk, IsErrOf};
ghost use Rattle.ports.specs.Shelf.{ShelfState, Holds, Blames, HoldsLonger, longest_file, raised};
ghost use Rattle.ports.specs.declared.shelf.Fetch.TheVariants.{Memory};

use std::alloc::{AllocError, AllocFailed, Global};
use std::marker::Model;

/// How many bytes a file may have.
pub const LONGEST_FILE: usize = 16_777_216;

/// Why a file was not fetched.
#[derive(Clone, Copy)]
pub enum Fetch {
    /// The outside failed.
    Failed,
    /// The file has more than 16,777,216 bytes.
    TooLong,
    /// Memory ran out.
    Memory,
}

impl From<AllocError> for Fetch {
    ghost from_gives = { λ _ e. e ≡ Memory };

    fn from(_e: AllocError) -> Fetch {
        Fetch::Memory
    }
}

impl<T: Drop> From<AllocFailed<T>> for Fetch {
    ghost from_gives = { λ _ e. e ≡ Memory };

    fn from(_e: AllocFailed<T>) -> Fetch {
        Fetch::Memory
    }
}

/// A count that never falls, and the path of the last call that raised it.
#[derive(Drop)]
pub struct Blame {
    count: u64,
    path: Vec<u8>,
}

impl Model for Blame {
    ghost use Rattle.ports.specs.Shelf.{Blamed};

    ghost Value = { Blamed };

    ghost view = { λ b. record { count = b.count; path = b.path.items } };
}

impl Blame {
    /// Nothing is counted yet. Takes no memory.
    pub fn new(alloc: Global) -> Self
        ensures count { result.count ≡ 0 }
        ensures path { result.path ≡ [] }
    {
        Blame {
            count: 0,
            path: Vec::new(alloc),
        }
    }

    /// How often something went wrong: at `u64::MAX` the count stays.
    pub fn count(&self) -> u64
        ensures { result ≡ self.now.count }
    {
        self.count
    }

    /// The path of the last call that raised the count.
    pub fn path(&self) -> &[u8]
        ensures { result.now ≡ self.now.path }
    {
        self.path.as_slice()
    }

    /// Counts once more, at this path. A count at `u64::MAX` stays.
    pub fn raise(&mut self, path: Vec<u8>)
        ensures count { self.new.count ≡ raised self.old.count }
        ensures path { self.new.path ≡ path.items }
        ensures blames { Blames self.old self.new path.items }
        ensures grows { self.old.count ≤ self.new.count }
    {
        self.count = self.count.saturating_add(1);
        self.path = path;
    }
}

/// Where class files come from.
pub trait Shelf {
    /// What it holds, where it tells that, and what went wrong so far.
    ghost meaning: { Self → ShelfState };

    /// The bytes of the file at this path, at most 16,777,216.
    fn fetch(&mut self, path: &str) -> Result<Vec<u8>, Fetch>
        // What it holds doesn't change, nor whether it tells that.
        ensures kept { (meaning self.new).files ≡ (meaning self.old).files }
        ensures found { IfOk result (λ bytes. Holds (meaning self.old).files path.now bytes.items) }
        ensures short { IfOk result (λ bytes. length bytes.items ≤ longest_file) }

        // The outside failed only where the count of faults rose, and the path beside it is this one.
        ensures failed { IsErrOf result Fetch.Failed → Blames (meaning self.old).faults (meaning self.new).faults path.now }

        // The file is too long only where the count of long files rose, and the path beside it is this
        // one; and where it tells what it holds, that is more than a file may have.
        ensures too_long { IsErrOf result Fetch.TooLong → Blames (meaning self.old).longs (meaning self.new).longs path.now }
        ensures longer { IsErrOf result Fetch.TooLong → HoldsLonger (meaning self.old).files path.now }

        // The counts never fall, and each stays with its path where the call doesn't answer so.
        ensures faults { (meaning self.old).faults.count ≤ (meaning self.new).faults.count }
        ensures longs { (meaning self.old).longs.count ≤ (meaning self.new).longs.count }
        ensures only_failed { (IsErrOf result Fetch.Failed → ⊥) → (meaning self.new).faults ≡ (meaning self.old).faults }
        ensures only_too_long { (IsErrOf result Fetch.TooLong → ⊥) → (meaning self.new).longs ≡ (meaning self.old).longs };
}
