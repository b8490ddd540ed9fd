ghost use Rattle.std.specs.Prelude.{IfOk};
ghost use Rattle.frames.specs.declared.value.Value.TheVariants as values;
ghost use Rattle.path_length.specs.Lengths.{HoldsReached, IsPathLength, IsReference};

use crate::walk::{begin_at, length_at, step};
use frames::{Heap, Value};
use std::alloc::{AllocError, Global};

/// The length of a reference to an object.
fn length_from(alloc: Global, heap: &Heap, root: u32) -> Result<Option<u64>, AllocError>
    requires { HoldsReached heap.now (values.Ref root) }
    ensures { IfOk result (λ n. IsPathLength heap.now (values.Ref root) n) }
{
    let mut walk = begin_at(alloc, heap, root)?;
    while let Some(visit) = walk.visits.pop() {
        if step(heap, root, &mut walk, visit)? {
            return Ok(None);
        }
    }
    Ok(length_at(&walk, root))
}

/// The path length of null or a reference: how many objects the longest chain has that begins there, and none where a cycle is
/// reached. Time and memory are linear in the heap, and no call is nested in its depth.
pub fn length(alloc: Global, heap: &Heap, value: Value) -> Result<Option<u64>, AllocError>
    requires reference { IsReference value }
    requires held { HoldsReached heap.now value }
    ensures { IfOk result (λ n. IsPathLength heap.now value n) }
{
    match value {
        Value::Ref(root) => length_from(alloc, heap, root),
        _ => Ok(Some(0)),
    }
}
