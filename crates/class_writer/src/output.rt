//! Bytes that are written one behind another.

ghost use Rattle.std.specs.Prelude.{◌≡◌, ◌<◌, ◌^◌, [], ◌∷◌, length};
ghost use Rattle.byteorder.specs.Endian.{big_bytes};
ghost use Rattle.class_pool.specs.Place.{IsBytes};
ghost use Rattle.class_writer.specs.Putting.{Puts};

use byteorder::{BigEndian, ByteOrder};
use std::alloc::{AllocError, Global};
use std::marker::Model;

/// How many bytes a class file has at most.
const MOST: usize = u32::MAX as usize;

/// The bytes that are written so far. Contracts see the list of them.
#[derive(Drop)]
pub(crate) struct Output {
    bytes: Vec<u8>,
}

impl Model for Output {
    ghost use Rattle.std.specs.Prelude.{List, ℕ, length, ◌<◌, ◌^◌};

    ghost Value = { List ℕ };

    ghost view = { λ o. o.bytes.items };

    ghost invariant = { λ o. length o.bytes.items < 2 ^ 32 };
}

/// A law: bytes are numbers below 256. Does nothing.
fn are_bytes(_bytes: &[u8])
    ensures { IsBytes _bytes.now }
{}

impl Output {
    /// No bytes.
    pub(crate) fn new(alloc: Global) -> Output
        ensures { result ≡ [] }
    {
        Output {
            bytes: Vec::new(alloc),
        }
    }

    /// The bytes.
    pub(crate) fn into_bytes(self) -> Vec<u8>
        ensures same { result.items ≡ self }
        ensures small { length result.items < 2 ^ 32 }
        ensures bytes { IsBytes result.items }
    {
        are_bytes(self.bytes.as_slice());
        self.bytes
    }

    /// Adds bytes at the end.
    pub(crate) fn put(&mut self, bytes: &[u8]) -> Result<(), AllocError>
        ensures { Puts result self.old self.new bytes.now }
    {
        if bytes.len() > MOST - self.bytes.len() {
            return Err(AllocError);
        }
        self.bytes.extend_from_slice(bytes)
    }

    /// Adds a byte.
    pub(crate) fn u1(&mut self, n: u8) -> Result<(), AllocError>
        ensures { Puts result self.old self.new (n ∷ []) }
    {
        self.put(&[n])
    }

    /// Adds a number of two bytes, the high one first.
    pub(crate) fn u2(&mut self, n: u16) -> Result<(), AllocError>
        ensures { Puts result self.old self.new (big_bytes 2 n) }
    {
        let mut bytes = [0u8; 2];
        BigEndian::write_u16(&mut bytes, n);
        self.put(&bytes)
    }

    /// Adds a number of four bytes, the highest first.
    pub(crate) fn u4(&mut self, n: u32) -> Result<(), AllocError>
        ensures { Puts result self.old self.new (big_bytes 4 n) }
    {
        let mut bytes = [0u8; 4];
        BigEndian::write_u32(&mut bytes, n);
        self.put(&bytes)
    }

    /// Adds a number of eight bytes, the highest first.
    pub(crate) fn long(&mut self, n: u64) -> Result<(), AllocError>
        ensures { Puts result self.old self.new (big_bytes 8 n) }
    {
        let mut bytes = [0u8; 8];
        BigEndian::write_u64(&mut bytes, n);
        self.put(&bytes)
    }
}
