ghost use Rattle.std.specs.Prelude.{◌≡◌, ◌+◌, ◌≤◌, drop, length};
ghost use Rattle.op_table.specs.Grammar.{int_at, signed_in, unsigned_in};

use byteorder::{BigEndian, ByteOrder};

// The bytes behind the first n.
pub(crate) fn behind(bytes: &[u8], n: usize) -> &[u8]
    ensures { result.now ≡ drop n bytes.now }
{
    bytes.get(n..).unwrap_or(&[])
}

// The number in the first byte.
pub(crate) fn byte_in(bytes: &[u8]) -> u8
    requires { 1 ≤ length bytes.now }
    ensures { result ≡ unsigned_in 1 bytes.now }
{
    bytes[0]
}

// The number with a sign in the first byte.
pub(crate) fn signed_byte_in(bytes: &[u8]) -> i8
    requires { 1 ≤ length bytes.now }
    ensures { result ≡ signed_in 1 bytes.now }
{
    bytes[0].cast_signed()
}

// The number in the first two bytes.
pub(crate) fn short_in(bytes: &[u8]) -> u16
    requires { 2 ≤ length bytes.now }
    ensures { result ≡ unsigned_in 2 bytes.now }
{
    BigEndian::read_u16(bytes)
}

// The number with a sign in the first two bytes.
pub(crate) fn signed_short_in(bytes: &[u8]) -> i16
    requires { 2 ≤ length bytes.now }
    ensures { result ≡ signed_in 2 bytes.now }
{
    BigEndian::read_i16(bytes)
}

// The int at a place of the bytes.
pub(crate) fn int_at(bytes: &[u8], place: usize) -> i32
    requires { place + 4 ≤ length bytes.now }
    ensures { result ≡ int_at place bytes.now }
{
    BigEndian::read_i32(&bytes[place..])
}
