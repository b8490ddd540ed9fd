//! Fields of objects, and what they hold before anything was stored (JVMS 2.3, 2.4).

ghost use Rattle.std.specs.Prelude.{◌≡◌};
ghost use Rattle.frames.specs.Heap.{default_of, is_object_field};

use crate::Value;
use crate::types::is_int_type;
use class_reader::{Field, is_static};

/// What a field holds before anything was stored.
pub fn default_of(desc: &[u8]) -> Value
    ensures { result ≡ default_of desc.now }
{
    if is_int_type(desc) {
        Value::Int(0)
    } else if desc == b"J".as_slice() {
        Value::Long(0)
    } else {
        Value::Null
    }
}

/// Whether objects have the field: it isn't static, float or double.
pub fn is_object_field(field: &Field) -> bool
    ensures { result ≡ is_object_field field.now }
{
    let desc = field.desc.as_slice();
    !is_static(field.flags) && !(desc == b"F".as_slice() || desc == b"D".as_slice())
}
