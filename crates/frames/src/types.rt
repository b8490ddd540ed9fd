//! What values are of (JVMS 4.3, 6.5.checkcast).

ghost use Rattle.std.specs.Prelude.{◌≡◌};
ghost use Rattle.descriptors.specs.Texts.{begins};
ghost use Rattle.frames.specs.Types.{is_int_letter, is_int_type, is_reference_type};
ghost use Rattle.frames.specs.Heap.{cell_at, is_instance, is_of_type};

use crate::{Cell, Heap, Value};
use descriptors::is_reference;
use world::World;

// Whether the text begins with this byte.
fn begins(byte: u8, text: &[u8]) -> bool
    ensures { result ≡ begins byte text.now }
{
    match text {
        [first, ..] => *first == byte,
        [] => false,
    }
}

fn is_int_letter(letter: u8) -> bool
    ensures { result ≡ is_int_letter letter }
{
    matches!(letter, b'B' | b'C' | b'I' | b'S' | b'Z')
}

/// Whether values of the type are computed with as ints (JVMS 2.11.1).
pub fn is_int_type(desc: &[u8]) -> bool
    ensures { result ≡ is_int_type desc.now }
{
    match desc {
        [letter] => is_int_letter(*letter),
        _ => false,
    }
}

/// Whether the type is that of a class or an array.
pub fn is_reference_type(desc: &[u8]) -> bool
    ensures { result ≡ is_reference_type desc.now }
{
    is_reference(desc)
}

// Whether the object or array with this number is of the type.
fn is_instance(w: &World, heap: &Heap, desc: &[u8], number: u32) -> bool
    ensures { result ≡ is_instance w.now desc.now (cell_at heap.now number) }
{
    match heap.get(number) {
        Some(Cell::Object { class, .. }) => w.is_object_of_type(*class, desc),
        Some(Cell::Array { element, .. }) => w.is_array_of_type(element.as_slice(), desc),
        None => false,
    }
}

/// Whether a value is of the type, where the heap holds what references refer to.
#[tactic(auto, unfolding(crate::specs::Heap::is_of_type))]
pub fn is_of_type(w: &World, heap: &Heap, desc: &[u8], value: Value) -> bool
    ensures { result ≡ is_of_type w.now heap.now desc.now value }
{
    match value {
        Value::Int(_) => is_int_type(desc),
        Value::Long(_) => desc == b"J".as_slice(),
        Value::Pad => false,
        Value::Null => is_reference_type(desc),
        Value::Ref(number) => is_instance(w, heap, desc, number),
    }
}
