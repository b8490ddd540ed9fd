//! Room on the operand stack, and values put on it (JVMS 2.6.2).

ghost use Rattle.std.specs.Prelude.{◌≡◌, ◌≤◌, ◌+◌, ◌-◌, nat_le, length, drop, OnOk, OnErr};
ghost use Rattle.frames.specs.Words.{is_reference, pushed, width_of};

use crate::{Stack, Value};
use std::alloc::AllocError;

/// Whether at most so many words are left when some are taken and others given.
pub fn has_space(height: usize, taken: usize, given: usize, limit: usize) -> bool
    requires { taken ≤ height }
    ensures { result ≡ nat_le (height - taken + given) limit }
{
    height - taken <= limit && given <= limit - (height - taken)
}

/// How many words a value takes on the stack.
pub fn width_of(value: Value) -> usize
    ensures { result ≡ width_of value }
{
    match value {
        Value::Long(_) => 2,
        _ => 1,
    }
}

/// Puts a value in the place of so many words. An `Err` changes nothing.
pub fn put(drops: usize, value: Value, stack: &mut Stack<Value>) -> Result<(), AllocError>
    requires { drops ≤ length stack.old }
    ensures ok { OnOk result (stack.new ≡ pushed value (drop drops stack.old)) }
    ensures err { OnErr result (stack.new ≡ stack.old) }
{
    match value {
        Value::Long(_) => stack.replace(drops, [value, Value::Pad].as_slice()),
        _ => stack.replace(drops, [value].as_slice()),
    }
}

/// Whether a word is null or a reference.
pub fn is_reference(value: Value) -> bool
    ensures { result ≡ is_reference value }
{
    matches!(value, Value::Null | Value::Ref(_))
}
