ghost use Rattle.std.specs.Prelude.{◌≡◌, ◌≤◌, ℕ, Err, length, IfOk};
ghost use Rattle.ports.specs.Shelf.{Holds, longest_file};
ghost use Rattle.class_pool.specs.Place.{IsBytes};
ghost use Rattle.analyser.specs.Files.{HoldBytes, HoldsAll, total, most_bytes, IsFailedAt, IsFailed, IsOverlongAt, IsOverlong, IsTooBig};
ghost use Rattle.analyser.specs.declared.fetching.Stop.TheVariants.{Memory};

use class_pool::Bytes;
use cost_words::PathWord;
use ports::{Fetch, Shelf};
use std::alloc::{AllocError, AllocFailed, Global};

/// How many bytes all fetched files have together at most.
pub(crate) const MOST_BYTES: usize = 268_435_456;

/// A file that was fetched, and the index of the word that names it.
#[derive(Drop)]
pub struct File {
    pub word: u64,
    pub bytes: Bytes,
}

/// Why not all files were fetched.
#[derive(Clone, Copy)]
pub enum Stop {
    /// The file that this word names could not be fetched.
    Failed { word: u64 },
    /// The file that this word names is too long.
    TooLong { word: u64 },
    /// The files have too many bytes together.
    TooBig,
    /// Memory ran out.
    Memory,
}

impl From<AllocError> for Stop {
    ghost from_gives = { λ _ e. e ≡ Memory };

    fn from(_e: AllocError) -> Stop {
        Stop::Memory
    }
}

impl<T: Drop> From<AllocFailed<T>> for Stop {
    ghost from_gives = { λ _ e. e ≡ Memory };

    fn from(_e: AllocFailed<T>) -> Stop {
        Stop::Memory
    }
}

// A law: a slice of bytes holds numbers below 256. Does nothing.
fn are_bytes(_bytes: &[u8])
    ensures { IsBytes _bytes.now }
{}

fn fetch_one<F: Shelf>(shelf: &mut F, path: &PathWord) -> Result<File, Stop>
    ensures kept { (F.meaning shelf.new).files ≡ (F.meaning shelf.old).files }
    ensures held { IfOk result (λ file. Holds (F.meaning shelf.old).files path.now.path file.bytes) }
    ensures word { IfOk result (λ file. file.word ≡ path.now.index) }
    ensures short { IfOk result (λ file. length file.bytes ≤ longest_file) }
    ensures bytes { IfOk result (λ file. IsBytes file.bytes) }
    ensures failed { (word : ℕ) → result ≡ Err (Stop.Failed word) → IsFailedAt (F.meaning shelf.old) (F.meaning shelf.new) path.now word }
    ensures too_long { (word : ℕ) → result ≡ Err (Stop.TooLong word) → IsOverlongAt (F.meaning shelf.old) (F.meaning shelf.new) path.now word }
    ensures not_too_big { result ≡ Err Stop.TooBig → ⊥ }
    ensures same { IfOk result (λ _. F.meaning shelf.new ≡ F.meaning shelf.old) }
{
    match shelf.fetch(path.path.as_str()) {
        Ok(bytes) => {
            are_bytes(bytes.as_slice());
            Ok(File {
                word: path.index,
                bytes: Bytes::from(bytes),
            })
        }
        Err(Fetch::Failed) => Err(Stop::Failed { word: path.index }),
        Err(Fetch::TooLong) => Err(Stop::TooLong { word: path.index }),
        Err(Fetch::Memory) => Err(Stop::Memory),
    }
}

/// The files at these paths, fetched in their order, up to the first that could not be fetched, is too
/// long, or passes the number of bytes that all have together.
pub fn fetch_all<F: Shelf>(
    alloc: Global,
    shelf: &mut F,
    paths: &[PathWord],
) -> Result<Vec<File>, Stop>
    ensures kept { (F.meaning shelf.new).files ≡ (F.meaning shelf.old).files }
    ensures held { IfOk result (λ v. HoldsAll (F.meaning shelf.old).files paths.now v.items) }
    ensures fits { IfOk result (λ v. total v.items ≤ most_bytes) }
    ensures bytes { IfOk result (λ v. HoldBytes v.items) }
    ensures failed { (word : ℕ) → result ≡ Err (Stop.Failed word) → IsFailed (F.meaning shelf.old) (F.meaning shelf.new) paths.now word }
    ensures too_long { (word : ℕ) → result ≡ Err (Stop.TooLong word) → IsOverlong (F.meaning shelf.old) (F.meaning shelf.new) paths.now word }
    ensures too_big { result ≡ Err Stop.TooBig → IsTooBig (F.meaning shelf.old) paths.now }
    ensures same { IfOk result (λ _. F.meaning shelf.new ≡ F.meaning shelf.old) }
    ensures same_too_big { result ≡ Err Stop.TooBig → F.meaning shelf.new ≡ F.meaning shelf.old }
{
    let mut files = Vec::new(alloc);
    let mut sum = 0;
    for path in paths {
        let file = fetch_one(shelf, path)?;
        sum += file.bytes.len();
        if sum > MOST_BYTES {
            return Err(Stop::TooBig);
        }
        files.push(file)?;
    }
    Ok(files)
}
