ghost use Rattle.std.specs.Prelude.{◌≡◌, ◌≤◌, Some, [], length, option_copied, IfOk, IsErrOf};
ghost use Rattle.ports.specs.Shelf.{bytes_at, raised, Holds, Blames, HoldsLonger, longest_file};
ghost use Rattle.ports.specs.Memory.{unasked, shelf_of, fetched, next_call};

use crate::shelf::{Blame, Fetch, LONGEST_FILE, Shelf};
use class_pool::{Bytes, Text};
use std::alloc::Global;
use std::marker::Model;

/// Files in memory, of which some calls fail.
#[derive(Drop)]
pub struct MemoryShelf {
    alloc: Global,
    files: Vec<(Text, Bytes)>,
    fails: Vec<u64>,
    calls: u64,
    faults: Blame,
    longs: Blame,
}

impl Model for MemoryShelf {
    ghost use Rattle.ports.specs.Memory.{HeldFiles};

    ghost Value = { HeldFiles };

    ghost view = { λ s. record { files = s.files.items; fails = s.fails.items; calls = s.calls; faults = s.faults; longs = s.longs } };
}

/// The bytes of the first pair with this path.
fn bytes_at<'a>(files: &'a [(Text, Bytes)], path: &[u8]) -> Option<&'a [u8]>
    ensures { option_copied result ≡ bytes_at files.now path.now }
{
    for file in files {
        if file.0.as_slice() == path {
            return Some(file.1.as_slice());
        }
    }
    None
}

impl MemoryShelf {
    /// A shelf of these pairs of a path and its bytes, on which each call whose number, counted from
    /// 1, is in `fails` fails. Of two pairs with one path the first counts.
    pub fn new(alloc: Global, files: Vec<(Text, Bytes)>, fails: Vec<u64>) -> Self
        ensures { result ≡ unasked files.items fails.items }
    {
        MemoryShelf {
            alloc,
            files,
            fails,
            calls: 0,
            faults: Blame::new(alloc),
            longs: Blame::new(alloc),
        }
    }

    /// How often a call failed.
    pub fn faults(&self) -> &Blame
        ensures { result.now ≡ self.now.faults }
    {
        &self.faults
    }

    /// How often a file was too long.
    pub fn longs(&self) -> &Blame
        ensures { result.now ≡ self.now.longs }
    {
        &self.longs
    }
}

impl Shelf for MemoryShelf {
    ghost meaning = { shelf_of };

    fn fetch(&mut self, path: &str) -> Result<Vec<u8>, Fetch>
        // As each shelf.
        ensures kept { (shelf_of self.new).files ≡ (shelf_of self.old).files }
        ensures found { IfOk result (λ bytes. Holds (shelf_of self.old).files path.now bytes.items) }
        ensures short { IfOk result (λ bytes. length bytes.items ≤ longest_file) }
        ensures failed { IsErrOf result Fetch.Failed → Blames (shelf_of self.old).faults (shelf_of self.new).faults path.now }
        ensures too_long { IsErrOf result Fetch.TooLong → Blames (shelf_of self.old).longs (shelf_of self.new).longs path.now }
        ensures longer { IsErrOf result Fetch.TooLong → HoldsLonger (shelf_of self.old).files path.now }
        ensures faults { (shelf_of self.old).faults.count ≤ (shelf_of self.new).faults.count }
        ensures longs { (shelf_of self.old).longs.count ≤ (shelf_of self.new).longs.count }
        ensures only_failed { (IsErrOf result Fetch.Failed → ⊥) → (shelf_of self.new).faults ≡ (shelf_of self.old).faults }
        ensures only_too_long { (IsErrOf result Fetch.TooLong → ⊥) → (shelf_of self.new).longs ≡ (shelf_of self.old).longs }

        // What this call answers.
        ensures calls { self.new.calls ≡ next_call self.old.calls }
        ensures fails { self.new.fails ≡ self.old.fails }
        ensures ok { IfOk result (λ bytes. fetched self.old path.now ≡ Ok bytes.items) }
        ensures is_failed { IsErrOf result Fetch.Failed → fetched self.old path.now ≡ Err Fetch.Failed }
        ensures is_too_long { IsErrOf result Fetch.TooLong → fetched self.old path.now ≡ Err Fetch.TooLong }
        ensures one_fault { IsErrOf result Fetch.Failed → self.new.faults.count ≡ raised self.old.faults.count }
        ensures one_long { IsErrOf result Fetch.TooLong → self.new.longs.count ≡ raised self.old.longs.count }
    {
        self.calls = self.calls.saturating_add(1);
        let blamed = Vec::from_slice(self.alloc, path.as_bytes())?;
        if self.fails.contains(&self.calls) {
            self.faults.raise(blamed);
            return Err(Fetch::Failed);
        }
        match bytes_at(&self.files, path.as_bytes()) {
            None => {
                self.faults.raise(blamed);
                Err(Fetch::Failed)
            }
            Some(bytes) if bytes.len() > LONGEST_FILE => {
                self.longs.raise(blamed);
                Err(Fetch::TooLong)
            }
            Some(bytes) => Ok(Vec::from_slice(self.alloc, bytes)?),
        }
    }
}
