//! Bytes and words in the texts of cases.

use crate::Case;

/// Adds the bytes' next digit, whose first half is given or not, and gives the first half of the byte behind it.
fn add_digit(
    case: &mut Case<'_>,
    bytes: &mut Vec<u8>,
    high: Option<u8>,
    digit: char,
) -> Option<u8> {
    let Some(value) = digit.to_digit(16) else {
        case.malformed("a digit is none");
        return None;
    };
    let value = value as u8;
    let Some(high) = high else {
        return Some(value);
    };
    case.add(bytes, high.wrapping_mul(16) | value);
    None
}

/// The bytes that pairs of hexadecimal digits are, parted by spaces or not.
pub fn bytes_of(case: &mut Case<'_>, digits: &str) -> Vec<u8> {
    let mut bytes = Vec::new(case.alloc());
    let mut high = None;
    for digit in digits.chars() {
        if digit != ' ' {
            high = add_digit(case, &mut bytes, high, digit);
        }
    }
    if high.is_some() {
        case.malformed("a byte has one digit");
    }
    bytes
}

/// Adds a word.
pub fn push_word(case: &mut Case<'_>, words: &mut Vec<String>, word: &str) {
    let made = String::from_str(case.alloc(), word);
    if let Some(word) = case.made(made) {
        case.add(words, word);
    }
}

/// How often a word stands for itself, and the word: `N*WORD` stands for N words, and `''` for an empty one.
pub fn counted<'a>(case: &mut Case<'_>, word: &'a str) -> (u32, &'a str) {
    let (count, word) = word.split_once('*').unwrap_or(("1", word));
    let word = if word == "''" { "" } else { word };
    (case.parsed(count), word)
}

/// The words of a line, parted by spaces.
pub fn words_of(case: &mut Case<'_>, line: &str) -> Vec<String> {
    let mut words = Vec::new(case.alloc());
    for word in line.split_whitespace() {
        let (count, word) = counted(case, word);
        for _ in 0..count {
            push_word(case, &mut words, word);
        }
    }
    words
}

/// Adds bytes to the answer as a text, with U+FFFD for what is none.
pub fn put_text(case: &mut Case<'_>, bytes: &[u8]) {
    let text = String::from_utf8_lossy(case.alloc(), bytes);
    if let Some(text) = case.made(text) {
        case.put(text.as_str());
    }
}
