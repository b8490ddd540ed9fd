//! What is left of a number in the type of a field, an element or a result (JVMS 2.3, 6.5.ireturn).

ghost use Rattle.std.specs.Prelude.{◌≡◌};
ghost use Rattle.word_steps.specs.Narrowing.{left_in, narrowed_to};

use crate::ints;
use frames::Value;
use op_table::acts::Small;

/// What is left of an int in the type with this descriptor.
pub fn left_in(desc: &[u8], n: i32) -> i32
    ensures { result ≡ left_in desc.now n }
{
    match desc {
        [b'B'] => ints::narrow(Small::Byte, n),
        [b'C'] => ints::narrow(Small::Char, n),
        [b'S'] => ints::narrow(Small::Short, n),
        [b'Z'] => n.rem_euclid(2),
        _ => n,
    }
}

/// What is left of a value in the type with this descriptor.
pub fn narrowed_to(desc: &[u8], value: Value) -> Value
    ensures { result ≡ narrowed_to desc.now value }
{
    match value {
        Value::Int(n) => Value::Int(left_in(desc, n)),
        _ => value,
    }
}
