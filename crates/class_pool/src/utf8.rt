//! The modified UTF-8 of class files.

ghost use Rattle.std.specs.Prelude.{◌≡◌, ◌<◌, ◌==◌, ◌&&◌, nat_le, length, IfSome, MatchOption};
ghost use Rattle.class_pool.specs.Utf8.{is_modified_utf8, is_continuation};

/// Whether the byte is a character.
fn is_single(first: u8) -> bool
    ensures { result ≡ (nat_le 1 first && nat_le first 127) }
{
    1 <= first && first <= 0x7f
}

/// Whether the byte is of the form 10xxxxxx.
fn is_next(byte: u8) -> bool
    ensures { result ≡ is_continuation byte }
{
    0x80 <= byte && byte <= 0xbf
}

/// Whether the bytes are a character of the form 110xxxxx 10xxxxxx.
fn is_pair(first: u8, second: u8) -> bool
    ensures { result ≡ (nat_le 192 first && nat_le first 223 && is_continuation second) }
{
    0xc0 <= first && first <= 0xdf && is_next(second)
}

/// Whether the bytes are a character of the form 1110xxxx 10xxxxxx 10xxxxxx.
fn is_triple(first: u8, second: u8, third: u8) -> bool
    ensures { result ≡ (nat_le 224 first && nat_le first 239 && is_continuation second && is_continuation third) }
{
    0xe0 <= first && first <= 0xef && is_next(second) && is_next(third)
}

/// What follows the first character, where the bytes begin with one.
fn after_character(bytes: &[u8]) -> Option<&[u8]>
    ensures shorter { IfSome result (λ rest. length rest.now < length bytes.now) }
    ensures same { MatchOption result (is_modified_utf8 bytes.now ≡ (length bytes.now == 0)) (λ rest. is_modified_utf8 bytes.now ≡ is_modified_utf8 rest.now) }
{
    match bytes {
        [first, rest @ ..] if is_single(*first) => Some(rest),
        [first, second, rest @ ..] if is_pair(*first, *second) => Some(rest),
        [first, second, third, rest @ ..] if is_triple(*first, *second, *third) => Some(rest),
        _ => None,
    }
}

/// Whether the bytes are a text of a class file (JVMS 4.4.7).
pub fn is_utf8(bytes: &[u8]) -> bool
    ensures { result ≡ is_modified_utf8 bytes.now }
{
    let mut rest = bytes;
    while let Some(after) = after_character(rest) {
        rest = after;
    }
    rest.is_empty()
}
