ghost use Rattle.std.specs.Prelude.{◌≡◌, ◌<◌, ◌≤◌, None, IfOk, OnOk, IsErrOf, vec_len, length};
ghost use Rattle.ports.specs.Shelf.{fresh, longest_file};

use crate::shelf::{Blame, Fetch, LONGEST_FILE, Shelf};
use std::alloc::{AllocError, Global};
use std::fs;
use std::io::Read;
use std::marker::Model;
use std::rt::Files;

/// How many bytes are asked for at a time.
const PIECE: usize = 65_536;

/// The files of the system.
#[derive(Drop)]
pub struct FileShelf<R> {
    runtime: R,
    alloc: Global,
    faults: Blame,
    longs: Blame,
}

impl<R> Model for FileShelf<R> {
    ghost use Rattle.std.specs.Prelude.{None};
    ghost use Rattle.ports.specs.Shelf.{ShelfState};

    ghost Value = { ShelfState };

    ghost view = { λ s. record { files = None; faults = s.faults; longs = s.longs } };
}

impl<R> FileShelf<R> {
    /// The files that this runtime reaches. What they hold isn't told.
    pub fn new(alloc: Global, runtime: R) -> Self
        ensures { result ≡ fresh None }
    {
        FileShelf {
            runtime,
            alloc,
            faults: Blame::new(alloc),
            longs: Blame::new(alloc),
        }
    }
}

fn new_piece(alloc: Global) -> Result<Vec<u8>, AllocError> {
    vec![in alloc; 0; PIECE]
}

/// Reads one piece more, and answers how many bytes it had. At most one byte more is taken than a file
/// may have.
fn read_piece(
    file: &mut (impl Read + Drop),
    piece: &mut [u8],
    bytes: &mut Vec<u8>,
) -> Result<usize, Fetch>
    requires { vec_len bytes.old ≤ longest_file }
    ensures ok { OnOk result (vec_len bytes.new ≤ longest_file) }
    ensures too_long { IsErrOf result Fetch.TooLong → longest_file < vec_len bytes.new }
{
    let wanted = piece.len().min(LONGEST_FILE + 1 - bytes.len());
    let Ok(count) = file.read(&mut piece[..wanted]) else {
        return Err(Fetch::Failed);
    };
    bytes.extend_from_slice(&piece[..count])?;
    if bytes.len() > LONGEST_FILE {
        return Err(Fetch::TooLong);
    }
    Ok(count)
}

/// The bytes of an open file up to its end.
fn read_whole(alloc: Global, mut file: impl Read + Drop) -> Result<Vec<u8>, Fetch>
    ensures { IfOk result (λ bytes. length bytes.items ≤ longest_file) }
{
    let mut piece = new_piece(alloc)?;
    let mut bytes = Vec::new(alloc);
    for _ in 0..u64::MAX {
        if read_piece(&mut file, piece.as_mut_slice(), &mut bytes)? == 0 {
            return Ok(bytes);
        }
    }
    Err(Fetch::Failed)
}

/// The bytes of the file at a path.
fn read_file<R: Files>(alloc: Global, runtime: &R, path: &str) -> Result<Vec<u8>, Fetch>
    ensures { IfOk result (λ bytes. length bytes.items ≤ longest_file) }
{
    match fs::open(runtime, path) {
        Err(_) => Err(Fetch::Failed),
        Ok(file) => read_whole(alloc, file),
    }
}

impl<R: Files> Shelf for FileShelf<R> {
    ghost meaning = { λ s. s };

    fn fetch(&mut self, path: &str) -> Result<Vec<u8>, Fetch> {
        let blamed = Vec::from_slice(self.alloc, path.as_bytes())?;
        let answer = read_file(self.alloc, &self.runtime, path);
        match &answer {
            Err(Fetch::Failed) => self.faults.raise(blamed),
            Err(Fetch::TooLong) => self.longs.raise(blamed),
            _ => {}
        }
        answer
    }
}
