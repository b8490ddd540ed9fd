//! What the text of a type says (JVMS 4.3.2).

ghost use Rattle.std.specs.Prelude.{◌≡◌, ◌-◌, drop, length, take};
ghost use Rattle.descriptors.specs.Texts.{begins, is_array, is_class, is_reference, name_of};

use crate::pieces::behind_open;

// Whether the text begins with this byte.
pub(crate) fn begins(byte: u8, text: &[u8]) -> bool
    ensures { result ≡ begins byte text.now }
{
    match text {
        [first, ..] => *first == byte,
        [] => false,
    }
}

/// Whether a descriptor or a name is that of an array.
pub fn is_array(text: &[u8]) -> bool
    ensures { result ≡ is_array text.now }
{
    begins(b'[', text)
}

/// Whether a descriptor is that of a class type.
pub fn is_class(text: &[u8]) -> bool
    ensures { result ≡ is_class text.now }
{
    begins(b'L', text)
}

/// Whether a descriptor is that of a reference type.
pub fn is_reference(text: &[u8]) -> bool
    ensures { result ≡ is_reference text.now }
{
    is_array(text) || is_class(text)
}

// The text before its last byte.
fn before_last(text: &[u8]) -> &[u8]
    ensures { result.now ≡ take (length text.now - 1) text.now }
{
    &text[..text.len().saturating_sub(1)]
}

/// The name in the descriptor of a reference type.
pub fn name_of(text: &[u8]) -> &[u8]
    ensures { result.now ≡ name_of text.now }
{
    if is_array(text) {
        text
    } else {
        before_last(behind_open(text))
    }
}
