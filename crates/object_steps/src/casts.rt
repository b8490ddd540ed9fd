//! What a reference is an instance of (JVMS 6.5.checkcast, 6.5.instanceof).

ghost use Rattle.std.specs.Prelude.{◌≡◌, ◌≤◌, ◌+◌, length, drop, Ok, OnErr, IfOk};
ghost use Rattle.class_pool.specs.Pool.{class_name_at};
ghost use Rattle.op_table.specs.declared.acts.Kind.TheVariants as kinds;
ghost use Rattle.frames.specs.Outcome.{HasGone};
ghost use Rattle.frames.specs.Words.{popped};
ghost use Rattle.object_steps.specs.After.{does};
ghost use Rattle.object_steps.specs.Classes.{class_known, type_named};
ghost use Rattle.object_steps.specs.Casts.{cast, cast_to, test, test_of};

use crate::classes::{class_known, is_named};
use crate::ending::{MISFIT, push_read};
use class_pool::Text;
use frames::{Failure, Fetched, Going, Heap, Here, Raised, Value, stop_of, value_on};
use op_table::acts::Kind;
use std::alloc::AllocError;
use world::World;

// Null and an instance of the class or array of this name, or what is thrown.
fn cast(world: &World, heap: &Heap, name: &Text, reference: Value) -> Result<Value, Failure>
    ensures { result ≡ cast world.now heap.now (type_named name.now) reference }
{
    match reference {
        Value::Null => Ok(Value::Null),
        Value::Ref(number) => {
            if is_named(world, heap, name, number) {
                Ok(Value::Ref(number))
            } else {
                Err(Failure::Throws(Raised::ClassCast))
            }
        }
        _ => Err(MISFIT),
    }
}

// 1 for an instance of the class or array of this name, 0 for anything else and null.
fn test(world: &World, heap: &Heap, name: &Text, reference: Value) -> Result<Value, Failure>
    ensures { result ≡ test world.now heap.now (type_named name.now) reference }
{
    match reference {
        Value::Null => Ok(Value::Int(0)),
        Value::Ref(number) => Ok(Value::Int(if is_named(world, heap, name, number) {
            1
        } else {
            0
        })),
        _ => Err(MISFIT),
    }
}

// Lets null and instances of what the Class entry names pass. An `Err` changes nothing.
pub(crate) fn cast_to(
    world: &World,
    index: u16,
    fetched: &Fetched<'_>,
    here: &mut Here,
) -> Result<Going, AllocError>
    requires { fetched.now.next ≡ here.old.frame.pc + fetched.now.standing.instr.len }
    ensures gone { IfOk result (λ going. HasGone going here.old here.new
        (does fetched.now.standing here.old (cast_to world.now here.old (class_known world.now (class_name_at fetched.now.standing.class.pool index))))) }
    ensures err { OnErr result (here.new ≡ here.old) }
{
    let name = match class_known(world, &fetched.class.pool, index) {
        Err(construct) => return Ok(Going::Fails(Failure::Stops(stop_of(construct)))),
        Ok(name) => name,
    };
    let read = match value_on(Kind::Reference, &here.frame.stack) {
        None => Err(MISFIT),
        Some(reference) => cast(world, &here.heap, name, reference),
    };
    push_read(read, 1, fetched, here)
}

// Whether it is an instance of what the Class entry names. An `Err` changes nothing.
pub(crate) fn test_of(
    world: &World,
    index: u16,
    fetched: &Fetched<'_>,
    here: &mut Here,
) -> Result<Going, AllocError>
    requires { fetched.now.next ≡ here.old.frame.pc + fetched.now.standing.instr.len }
    ensures gone { IfOk result (λ going. HasGone going here.old here.new
        (does fetched.now.standing here.old (test_of world.now here.old (class_known world.now (class_name_at fetched.now.standing.class.pool index))))) }
    ensures err { OnErr result (here.new ≡ here.old) }
{
    let name = match class_known(world, &fetched.class.pool, index) {
        Err(construct) => return Ok(Going::Fails(Failure::Stops(stop_of(construct)))),
        Ok(name) => name,
    };
    let read = match value_on(Kind::Reference, &here.frame.stack) {
        None => Err(MISFIT),
        Some(reference) => test(world, &here.heap, name, reference),
    };
    push_read(read, 1, fetched, here)
}
