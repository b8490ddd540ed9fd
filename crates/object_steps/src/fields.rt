//! Fields of objects (JVMS 6.5.getfield, 6.5.putfield).

ghost use Rattle.std.specs.Prelude.{◌≡◌, ◌≤◌, ◌+◌, false, length, drop, Ok, OnErr, IfOk, IsSome};
ghost use Rattle.class_pool.specs.Pool.{member_at};
ghost use Rattle.op_table.specs.declared.acts.Kind.TheVariants as kinds;
ghost use Rattle.frames.specs.Words.{popped};
ghost use Rattle.frames.specs.Heap.{field_at};
ghost use Rattle.frames.specs.Outcome.{HasGone};
ghost use Rattle.object_steps.specs.After.{does, reads};
ghost use Rattle.object_steps.specs.Fields.{field_named, field_read, field_written, get, get_popped, kind_of_type, on_object, put, put_popped, popped_of_type, writes};
ghost use Rattle.object_steps.specs.inside.Steps.{IsPut, field_seen, put_as};

use crate::classes::is_named;
use crate::ending::{MISFIT, MISFITS, has_room, push_read};
use crate::named::{Named, field_named, kind_of_type, value_of_type};
use crate::tops::reference_at;
use frames::{
    Failure, Fetched, Going, Heap, Here, Raised, Stop, Value, stop_of, value_on, words_of,
};
use op_table::acts::Kind;
use std::alloc::{AllocError, Global};
use word_steps::narrowed_to;
use world::World;

// What goes where: the object, the value as it was popped, and how many words are taken.
#[derive(Clone, Copy)]
pub(crate) struct FieldWrite {
    pub(crate) object: u32,
    pub(crate) value: Value,
    pub(crate) taken: usize,
}

// The object of the class that is named, to which a reference refers, or why there is none.
fn on_object(
    world: &World,
    heap: &Heap,
    field: &Named<'_>,
    reference: Value,
) -> Result<u32, Failure>
    ensures { result ≡ on_object world.now heap.now (field_seen field.now) reference }
{
    match reference {
        Value::Null => Err(Failure::Throws(Raised::NullPointer)),
        Value::Ref(number) => {
            if is_named(world, heap, field.class, number) {
                Ok(number)
            } else {
                Err(Failure::Stops(Stop::Receiver))
            }
        }
        _ => Err(MISFIT),
    }
}

// The value in a field of the object that a reference refers to, or why there is none.
fn field_read(
    world: &World,
    heap: &Heap,
    field: &Named<'_>,
    reference: Value,
) -> Result<Value, Failure>
    ensures { result ≡ field_read world.now heap.now (field_seen field.now) reference }
{
    let object = on_object(world, heap, field, reference)?;
    match heap.field(object, field.field) {
        None => Err(MISFIT),
        Some(value) => Ok(value),
    }
}

// What is read in the place of a word, or why nothing is.
fn got(world: &World, field: &Named<'_>, here: &Here) -> Result<Value, Failure>
    ensures same { get_popped world.now here.now (field_seen field.now) (popped kinds.Reference here.now.frame.stack) ≡ reads here.now (drop 1 here.now.frame.stack) result }
    ensures there { IfOk result (λ _. 1 ≤ length here.now.frame.stack) }
{
    match value_on(Kind::Reference, &here.frame.stack) {
        None => Err(MISFIT),
        Some(reference) => field_read(world, &here.heap, field, reference),
    }
}

// Reads a field. An `Err` changes nothing.
pub(crate) fn get(
    alloc: Global,
    world: &World,
    index: u16,
    fetched: &Fetched<'_>,
    here: &mut Here,
) -> Result<Going, AllocError>
    requires { fetched.now.next ≡ here.old.frame.pc + fetched.now.standing.instr.len }
    ensures gone { IfOk result (λ going. HasGone going here.old here.new
        (does fetched.now.standing here.old (get world.now here.old (field_named world.now false (member_at fetched.now.standing.class.pool index))))) }
    ensures err { OnErr result (here.new ≡ here.old) }
{
    match field_named(alloc, world, false, &fetched.class.pool, index)? {
        Err(construct) => Ok(Going::Fails(Failure::Stops(stop_of(construct)))),
        Ok(field) => {
            let read = got(world, &field, here);
            push_read(read, 1, fetched, here)
        }
    }
}

// The object with the field that a reference refers to, or why there is none.
fn field_written(
    world: &World,
    heap: &Heap,
    field: &Named<'_>,
    reference: Value,
) -> Result<u32, Failure>
    ensures same { result ≡ field_written world.now heap.now (field_seen field.now) reference }
    ensures there { IfOk result (λ object. IsSome (field_at heap.now object field.now.field)) }
{
    let object = on_object(world, heap, field, reference)?;
    match heap.field(object, field.field) {
        None => Err(MISFIT),
        Some(_) => Ok(object),
    }
}

// What a store writes when it takes so many words for the value and one behind it, or why it writes nothing.
fn put_of(world: &World, field: &Named<'_>, here: &Here) -> Result<FieldWrite, Failure>
    ensures same { put_popped world.now here.now (field_seen field.now) (popped_of_type world.now here.now.heap field.now.desc.now here.now.frame.stack)
        ≡ put_as (field_seen field.now) here.now result }
    ensures there { IfOk result (IsPut (field_seen field.now) here.now) }
{
    let desc = field.desc.as_slice();
    let Some(value) = value_of_type(world, &here.heap, desc, &here.frame.stack) else {
        return Err(MISFIT);
    };
    let words = words_of(kind_of_type(desc));
    let Some(reference) = reference_at(words, &here.frame.stack) else {
        return Err(MISFIT);
    };
    let object = field_written(world, &here.heap, field, reference)?;
    Ok(FieldWrite {
        object,
        value,
        taken: words + 1,
    })
}

// Puts a value into a field, and goes on, where there is room.
fn write(put: FieldWrite, field: &Named<'_>, fetched: &Fetched<'_>, here: &mut Here) -> Going
    requires next { fetched.now.next ≡ here.old.frame.pc + fetched.now.standing.instr.len }
    requires there { IsPut (field_seen field.now) here.old put }
    ensures { HasGone result here.old here.new (does fetched.now.standing here.old (put_as (field_seen field.now) here.old (Ok put))) }
{
    if !has_room(fetched, here, put.taken, 0) {
        return MISFITS;
    }
    let value = narrowed_to(field.desc.as_slice(), put.value);
    here.frame.stack.cut(put.taken);
    here.heap.set_field(put.object, field.field, value);
    here.frame.pc = fetched.next;
    Going::Goes
}

// Writes a field. An `Err` changes nothing.
pub(crate) fn put(
    alloc: Global,
    world: &World,
    index: u16,
    fetched: &Fetched<'_>,
    here: &mut Here,
) -> Result<Going, AllocError>
    requires { fetched.now.next ≡ here.old.frame.pc + fetched.now.standing.instr.len }
    ensures gone { IfOk result (λ going. HasGone going here.old here.new
        (does fetched.now.standing here.old (put world.now here.old (field_named world.now false (member_at fetched.now.standing.class.pool index))))) }
    ensures err { OnErr result (here.new ≡ here.old) }
{
    match field_named(alloc, world, false, &fetched.class.pool, index)? {
        Err(construct) => Ok(Going::Fails(Failure::Stops(stop_of(construct)))),
        Ok(field) => match put_of(world, &field, here) {
            Err(failure) => Ok(Going::Fails(failure)),
            Ok(put) => Ok(write(put, &field, fetched, here)),
        },
    }
}
