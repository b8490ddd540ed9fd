//! The fields that instructions name, and values of their types (JVMS 5.4.3.2).

ghost use Rattle.std.specs.Prelude.{◌≡◌, Ok, Err, IfOk, MatchResult};
ghost use Rattle.class_pool.specs.Pool.{member_at};
ghost use Rattle.frames.specs.Tops.{HasValue, kind_words};
ghost use Rattle.object_steps.specs.Fields.{field_named, kind_of_type, popped_of_type};
ghost use Rattle.object_steps.specs.inside.Steps.{field_seen};

use class_pool::{Pool, Text};
use frames::{Heap, Stack, Value, is_int_type, is_of_type, value_on};
use linking::{LinkFault, field_by};
use op_table::Construct;
use op_table::acts::Kind;
use std::alloc::{AllocError, Global};
use world::{MemberId, World};

// A field, with the class that is named and its type.
#[derive(Clone, Copy)]
pub(crate) struct Named<'p> {
    pub(crate) class: &'p Text,
    pub(crate) desc: &'p Text,
    pub(crate) field: MemberId,
}

// What a member reference names, or what stands against it.
#[tactic(auto, using(crate::proofs::Naming::named_fault))]
pub(crate) fn field_named<'p>(
    alloc: Global,
    world: &World,
    is_static: bool,
    pool: &'p Pool,
    index: u16,
) -> Result<Result<Named<'p>, Construct>, AllocError>
    ensures { IfOk result (λ found. MatchResult found
        (λ field. field_named world.now is_static (member_at pool.now index) ≡ Ok (field_seen field))
        (λ construct. field_named world.now is_static (member_at pool.now index) ≡ Err construct)) }
{
    let Some((_tag, class, _name, desc)) = pool.member(index) else {
        return Ok(Err(Construct::Constant));
    };
    match field_by(alloc, world, is_static, pool, index) {
        Ok(field) => Ok(Ok(Named { class, desc, field })),
        Err(LinkFault::Against(construct)) => Ok(Err(construct)),
        Err(LinkFault::Memory) => Err(AllocError),
    }
}

// What values of the type are popped as.
pub(crate) fn kind_of_type(desc: &[u8]) -> Kind
    ensures { result ≡ kind_of_type desc.now }
{
    if is_int_type(desc) {
        Kind::Int
    } else if desc == b"J".as_slice() {
        Kind::Long
    } else {
        Kind::Reference
    }
}

// The value of the type on top.
pub(crate) fn value_of_type(
    world: &World,
    heap: &Heap,
    desc: &[u8],
    stack: &Stack<Value>,
) -> Option<Value>
    ensures { HasValue result (kind_words (kind_of_type desc.now)) stack.now (popped_of_type world.now heap.now desc.now stack.now) }
{
    match value_on(kind_of_type(desc), stack) {
        Some(value) if is_of_type(world, heap, desc, value) => Some(value),
        _ => None,
    }
}
