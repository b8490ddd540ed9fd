ghost use Rattle.std.specs.Prelude.{◌≡◌, ◌+◌, ◌<◌, ◌≤◌, ◌^◌, ◌↔◌, length, take, IsOk, MatchResult};
ghost use Rattle.class_pool.specs.Place.{IsBytes, number_at, after, end_of};

use byteorder::{BigEndian, ByteOrder};
use std::marker::Model;

/// Too few bytes are left. `at` is where the bytes end.
#[derive(Clone, Copy)]
pub struct Short {
    pub at: u32,
}

/// Reads numbers and pieces from bytes, from the first one on. Contracts see the place that it stands at.
#[derive(Drop)]
pub struct Cursor<'a> {
    rest: &'a [u8],
    at: u32,
}

/// A law: a slice of bytes holds numbers below 256. Does nothing.
fn are_bytes(_bytes: &[u8])
    ensures { IsBytes _bytes.now }
{}

impl<'a> Model for Cursor<'a> {
    ghost use Rattle.std.specs.Prelude.{◌+◌, ◌<◌, ◌^◌, length};
    ghost use Rattle.class_pool.specs.Place.{Place};

    ghost Value = { Place };

    ghost view = { λ c. record { at = c.at; rest = c.rest.now } };

    ghost invariant = { λ c. c.at + length c.rest.now < 2 ^ 32 };
}

impl<'a> Cursor<'a> {
    /// Stands at the first of the bytes, which is `base` bytes from the file's first byte.
    pub fn new(bytes: &'a [u8], base: u32) -> Cursor<'a>
        requires { base + length bytes.now < 2 ^ 32 }
        ensures { (result.at ≡ base) × (result.rest ≡ bytes.now) }
    {
        Cursor {
            rest: bytes,
            at: base,
        }
    }

    /// The offset of the next byte, from the file's first byte.
    pub fn at(&self) -> u32
        ensures { result ≡ self.now.at }
    {
        self.at
    }

    /// How many bytes are left.
    pub fn left(&self) -> usize
        ensures { result ≡ length self.now.rest }
    {
        self.rest.len()
    }

    /// A law: what is left are bytes, numbers below 256. Does nothing.
    pub fn has_bytes(&self)
        ensures { IsBytes self.now.rest }
    {
        are_bytes(self.rest);
    }

    /// The fault of a cursor that has too few bytes left.
    fn short(&self) -> Short
        ensures { result.at ≡ end_of self.now }
    {
        Short {
            at: self.at + self.rest.len() as u32,
        }
    }

    /// The next byte. `Short` exactly where none is left; the cursor then stays.
    pub fn u1(&mut self) -> Result<u8, Short>
        ensures number { MatchResult result (λ n. number_at 1 self.old ≡ Some n) (λ e. (number_at 1 self.old ≡ None) × (e.at ≡ end_of self.old)) }
        ensures moved { MatchResult result (λ _. self.new ≡ after 1 self.old) (λ _. self.new ≡ self.old) }
    {
        match self.rest {
            [first, rest @ ..] => {
                self.at += 1;
                self.rest = rest;
                Ok(*first)
            }
            [] => Err(Short { at: self.at }),
        }
    }

    /// The number in the next two bytes, the highest first (`u2` of JVMS 4). `Short` exactly where
    /// there are fewer; the cursor then stays.
    pub fn u2(&mut self) -> Result<u16, Short>
        ensures number { MatchResult result (λ n. number_at 2 self.old ≡ Some n) (λ e. (number_at 2 self.old ≡ None) × (e.at ≡ end_of self.old)) }
        ensures moved { MatchResult result (λ _. self.new ≡ after 2 self.old) (λ _. self.new ≡ self.old) }
    {
        if self.rest.len() < 2 {
            return Err(self.short());
        }
        let number = BigEndian::read_u16(self.rest);
        self.at += 2;
        self.rest = &self.rest[2..];
        Ok(number)
    }

    /// The number in the next four bytes, the highest first (`u4` of JVMS 4). `Short` exactly where
    /// there are fewer; the cursor then stays.
    pub fn u4(&mut self) -> Result<u32, Short>
        ensures number { MatchResult result (λ n. number_at 4 self.old ≡ Some n) (λ e. (number_at 4 self.old ≡ None) × (e.at ≡ end_of self.old)) }
        ensures moved { MatchResult result (λ _. self.new ≡ after 4 self.old) (λ _. self.new ≡ self.old) }
    {
        if self.rest.len() < 4 {
            return Err(self.short());
        }
        let number = BigEndian::read_u32(self.rest);
        self.at += 4;
        self.rest = &self.rest[4..];
        Ok(number)
    }

    /// The number in the next eight bytes, the highest first. `Short` exactly where there are fewer;
    /// the cursor then stays.
    pub fn long(&mut self) -> Result<u64, Short>
        ensures number { MatchResult result (λ n. number_at 8 self.old ≡ Some n) (λ e. (number_at 8 self.old ≡ None) × (e.at ≡ end_of self.old)) }
        ensures moved { MatchResult result (λ _. self.new ≡ after 8 self.old) (λ _. self.new ≡ self.old) }
    {
        if self.rest.len() < 8 {
            return Err(self.short());
        }
        let number = BigEndian::read_u64(self.rest);
        self.at += 8;
        self.rest = &self.rest[8..];
        Ok(number)
    }

    /// The next `n` bytes. `Short` exactly where there are fewer; the cursor then stays.
    pub fn take(&mut self, n: u32) -> Result<&'a [u8], Short>
        ensures bytes { MatchResult result (λ s. s.now ≡ take n self.old.rest) (λ e. e.at ≡ end_of self.old) }
        ensures enough { IsOk result ↔ (n ≤ length self.old.rest) }
        ensures moved { MatchResult result (λ _. self.new ≡ after n self.old) (λ _. self.new ≡ self.old) }
    {
        let count = n as usize;
        if self.rest.len() < count {
            return Err(self.short());
        }
        let (piece, rest) = self.rest.split_at(count);
        self.at += n;
        self.rest = rest;
        Ok(piece)
    }
}
