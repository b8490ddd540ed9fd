//! Whether a text is a descriptor (JVMS 4.3.2, 4.3.3).

ghost use Rattle.std.specs.Prelude.{◌≡◌, ◌↔◌, ◌&&◌, ◌≤◌, IsTrue, false, length};
ghost use Rattle.std.specs.List.{list_all};
ghost use Rattle.descriptors.specs.Grammar.{IsFieldDescriptor, IsMethodDescriptor, IsMethodText, is_base_letter, is_name_byte};
ghost use Rattle.descriptors.specs.Pieces.{parameters_of, result_of, types_of};
ghost use Rattle.descriptors.specs.Texts.{text_dimensions};
ghost use Rattle.descriptors.specs.Tests.{describes, ends_name, has_few_dimensions, has_few_words, is_element, is_field, is_method_text, is_result, is_type};

use crate::pieces::{behind_open, first_type, parameter_words, result_of};
use crate::texts::begins;

/// How many dimensions a type has at most.
const MAX_DIMENSIONS: usize = 255;
/// How many words the receiver and the parameters of a method take at most.
const MAX_WORDS: usize = 255;

fn is_base_letter(byte: u8) -> bool
    ensures { result ≡ is_base_letter byte }
{
    matches!(byte, b'B' | b'C' | b'D' | b'F' | b'I' | b'J' | b'S' | b'Z')
}

fn is_name_byte(byte: u8) -> bool
    ensures { result ≡ is_name_byte byte }
{
    !matches!(byte, b'.' | b'/' | b';' | b'[')
}

// Whether the text is the name of a class and a `;`.
fn ends_name(text: &[u8]) -> bool
    ensures { result ≡ ends_name false text.now }
{
    let mut begun = false;
    let mut left = text;
    while let [first, rest @ ..] = left {
        left = rest;
        if is_name_byte(*first) {
            begun = true;
        } else if begun && *first == b'/' {
            begun = false;
        } else {
            return begun && *first == b';' && left.is_empty();
        }
    }
    false
}

// Whether the text is a type that is none of an array.
fn is_element(text: &[u8]) -> bool
    ensures { result ≡ is_element text.now }
{
    match text {
        [b'L', rest @ ..] => ends_name(rest),
        [letter] => is_base_letter(*letter),
        _ => false,
    }
}

// Whether the text is a type.
fn is_type(text: &[u8]) -> bool
    ensures { result ≡ is_type text.now }
{
    let mut left = text;
    while let [b'[', rest @ ..] = left {
        left = rest;
    }
    is_element(left)
}

// Whether the text is `V` or a type.
fn is_result(text: &[u8]) -> bool
    ensures { result ≡ is_result text.now }
{
    text == b"V".as_slice() || is_type(text)
}

// Whether each of the types of a text is one of the grammar.
fn are_types(types: &[u8]) -> bool
    ensures { result ≡ list_all is_type (types_of types.now) }
{
    let mut left = types;
    while let Some((desc, rest)) = first_type(left) {
        if !is_type(desc) {
            return false;
        }
        left = rest;
    }
    true
}

// Whether the text is types in parentheses and a result.
#[tactic(auto, unfolding(crate::specs::Tests::is_method_text))]
fn is_text(desc: &[u8]) -> bool
    ensures { result ≡ is_method_text desc.now }
{
    begins(b'(', desc) && are_types(behind_open(desc)) && is_result(result_of(desc))
}

/// Whether the text is in the grammar of method descriptors, however many dimensions an array has and however many
/// words the parameters take (JVMS 4.3.3).
pub fn is_method_text(desc: &[u8]) -> bool
    ensures exact { result ≡ is_method_text desc.now }
    ensures grammar { IsTrue result ↔ IsMethodText desc.now }
{
    is_text(desc)
}

// How many dimensions an array of this type has.
fn text_dimensions(text: &[u8]) -> usize
    ensures dimensions { result ≡ text_dimensions text.now }
    ensures few { result ≤ length text.now }
{
    let mut left = text;
    let mut dimensions = 0;
    while let [b'[', rest @ ..] = left {
        dimensions += 1;
        left = rest;
    }
    dimensions
}

fn has_few_dimensions(text: &[u8]) -> bool
    ensures { result ≡ has_few_dimensions text.now }
{
    text_dimensions(text) <= MAX_DIMENSIONS
}

// Whether each of the types of a text has few dimensions.
fn have_few_dimensions(types: &[u8]) -> bool
    ensures { result ≡ list_all has_few_dimensions (types_of types.now) }
{
    let mut left = types;
    while let Some((desc, rest)) = first_type(left) {
        if !has_few_dimensions(desc) {
            return false;
        }
        left = rest;
    }
    true
}

// Whether the receiver and the parameters of a method take few words.
fn has_few_words(is_static: bool, desc: &[u8]) -> bool
    ensures { result ≡ has_few_words is_static (parameters_of desc.now) }
{
    let receiver = if is_static { 0 } else { 1 };
    parameter_words(desc) + receiver <= MAX_WORDS
}

// Whether the text is a type of few dimensions.
#[tactic(auto, unfolding(crate::specs::Tests::is_field))]
fn is_field(desc: &[u8]) -> bool
    ensures { result ≡ is_field desc.now }
{
    is_type(desc) && has_few_dimensions(desc)
}

/// Whether the text is the descriptor of a field (JVMS 4.3.2).
pub fn is_field_descriptor(desc: &[u8]) -> bool
    ensures exact { result ≡ is_field desc.now }
    ensures grammar { IsTrue result ↔ IsFieldDescriptor desc.now }
{
    is_field(desc)
}

// Whether the types of a method's descriptor keep the limits.
fn has_limits(is_static: bool, desc: &[u8]) -> bool
    ensures { result ≡ ((list_all has_few_dimensions (parameters_of desc.now) && has_few_dimensions (result_of desc.now)) && has_few_words is_static (parameters_of desc.now)) }
{
    have_few_dimensions(behind_open(desc))
        && has_few_dimensions(result_of(desc))
        && has_few_words(is_static, desc)
}

// Whether the text is a method descriptor that keeps the limits.
#[tactic(auto, unfolding(crate::specs::Tests::describes))]
fn describes(is_static: bool, desc: &[u8]) -> bool
    ensures { result ≡ describes is_static desc.now }
{
    is_text(desc) && has_limits(is_static, desc)
}

/// Whether the text is the descriptor of a method, whose receiver and parameters take at most 255 words (JVMS 4.3.3).
pub fn is_method_descriptor(is_static: bool, desc: &[u8]) -> bool
    ensures exact { result ≡ describes is_static desc.now }
    ensures grammar { IsTrue result ↔ IsMethodDescriptor is_static desc.now }
{
    describes(is_static, desc)
}
