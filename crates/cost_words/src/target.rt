ghost use Rattle.std.specs.Prelude.{◌≡◌, ◌<◌, ◌+◌, ◌==◌, length, take, drop, position, IfOk, IfSome, option_map, nat_eq, ◌∷◌, []};
ghost use Rattle.std.specs.List.{starts_with};
ghost use Rattle.cost_words.specs.Target.{at_dot, at_colon, hex_value, hex_byte, first_byte, name_of, parts_of, target_from, target_of};

use class_pool::{Target, Text};
use descriptors::is_method_text;
use std::alloc::{AllocError, Global};

/// The three parts of a target, as they stand in a word.
#[derive(Clone, Copy)]
struct Parts<'a> {
    class: &'a [u8],
    method: &'a [u8],
    desc: &'a [u8],
}

fn place_of(byte: u8, word: &[u8]) -> Option<usize>
    ensures first { result ≡ position (λ b. b == byte) word.now }
    ensures within { IfSome result (λ place. place < length word.now) }
{
    word.iter().position(|b| *b == byte)
}

// What stands before and behind the first `.`.
fn at_dot(word: &[u8]) -> Option<(&[u8], &[u8])>
    ensures { option_map (λ parts. (parts.0.now, parts.1.now)) result ≡ at_dot word.now }
{
    match place_of(b'.', word) {
        None => None,
        Some(place) => Some((&word[..place], &word[place + 1..])),
    }
}

fn is_colon(word: &[u8]) -> bool
    ensures { result ≡ starts_with nat_eq word.now (58 ∷ 40 ∷ []) }
{
    word.starts_with(b":(")
}

// Where the first `:(` stands.
fn place_of_colon(word: &[u8]) -> Option<usize>
    ensures first { option_map (λ place. (take place word.now, drop (place + 1) word.now)) result ≡ at_colon word.now }
    ensures within { IfSome result (λ place. place < length word.now) }
{
    for place in 0..word.len() {
        if is_colon(&word[place..]) {
            return Some(place);
        }
    }
    None
}

// What stands before the `:` of the first `:(`, and from its `(` on.
fn at_colon(word: &[u8]) -> Option<(&[u8], &[u8])>
    ensures { option_map (λ parts. (parts.0.now, parts.1.now)) result ≡ at_colon word.now }
{
    match place_of_colon(word) {
        None => None,
        Some(place) => Some((&word[..place], &word[place + 1..])),
    }
}

// The parts of a word, cut at the first `.` and then at the first `:(`: no name is empty.
fn parts_of(word: &[u8]) -> Option<Parts<'_>>
    ensures { option_map (λ p. record { class = p.class.now; method = p.method.now; desc = p.desc.now }) result ≡ parts_of word.now }
{
    let (class, rest) = at_dot(word)?;
    let (method, desc) = at_colon(rest)?;
    if class.is_empty() || method.is_empty() {
        return None;
    }
    Some(Parts {
        class,
        method,
        desc,
    })
}

// The number of a hexadecimal digit.
fn hex_value(byte: u8) -> Option<u8>
    ensures value { result ≡ hex_value byte }
    ensures small { IfSome result (λ n. n < 16) }
{
    match byte {
        b'0'..=b'9' => Some(byte - b'0'),
        b'a'..=b'f' => Some(byte - b'a' + 10),
        b'A'..=b'F' => Some(byte - b'A' + 10),
        _ => None,
    }
}

// The byte of two hexadecimal digits.
fn hex_byte(high: u8, low: u8) -> Option<u8>
    ensures { result ≡ hex_byte high low }
{
    let high = hex_value(high)?;
    let low = hex_value(low)?;
    Some(16 * high + low)
}

// The first byte of a name and what stands behind it, where `\xHH` names a byte.
fn first_byte(text: &[u8]) -> Option<(u8, &[u8])>
    ensures { option_map (λ p. (p.0, p.1.now)) result ≡ first_byte text.now }
{
    match text {
        [b'\\', b'x', high, low, behind @ ..] => Some((hex_byte(*high, *low)?, behind)),
        [b'\\', ..] | [] => None,
        [byte, behind @ ..] => Some((*byte, behind)),
    }
}

// The bytes of a name; none where a backslash isn't that of a `\xHH`.
fn name_of(alloc: Global, text: &[u8]) -> Result<Option<Vec<u8>>, AllocError>
    ensures { IfOk result (λ name. option_map (λ n. n.items) name ≡ name_of text.now) }
{
    let mut name = Vec::new(alloc);
    let mut rest = text;
    while !rest.is_empty() {
        let Some((byte, behind)) = first_byte(rest) else {
            return Ok(None);
        };
        name.push(byte)?;
        rest = behind;
    }
    Ok(Some(name))
}

fn target_with(
    alloc: Global,
    class: &[u8],
    method: &[u8],
    desc: &[u8],
) -> Result<Target, AllocError>
    ensures { IfOk result (λ t. t ≡ record { class = class.now; method = method.now; desc = desc.now }) }
{
    Ok(Target {
        class: Text::from_slice(alloc, class)?,
        method: Text::from_slice(alloc, method)?,
        desc: Text::from_slice(alloc, desc)?,
    })
}

// The names of the parts, where the descriptor is one of a method.
fn target_from(alloc: Global, parts: Parts<'_>) -> Result<Option<Target>, AllocError>
    ensures { IfOk result (λ t. t ≡ target_from (record { class = parts.entry.class.now; method = parts.entry.method.now; desc = parts.entry.desc.now })) }
{
    let Some(class) = name_of(alloc, parts.class)? else {
        return Ok(None);
    };
    let Some(method) = name_of(alloc, parts.method)? else {
        return Ok(None);
    };
    let Some(desc) = name_of(alloc, parts.desc)? else {
        return Ok(None);
    };
    if !is_method_text(desc.as_slice()) {
        return Ok(None);
    }
    Ok(Some(target_with(alloc, class.as_slice(), method.as_slice(), desc.as_slice())?))
}

// The target that a word names.
#[tactic(auto, unfolding(crate::specs::Target::target_of))]
pub(crate) fn target_of(alloc: Global, word: &str) -> Result<Option<Target>, AllocError>
    ensures { IfOk result (λ t. t ≡ target_of word.now) }
{
    match parts_of(word.as_bytes()) {
        Some(parts) => target_from(alloc, parts),
        None => Ok(None),
    }
}
