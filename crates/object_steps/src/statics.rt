//! Static fields (JVMS 6.5.getstatic, 6.5.putstatic).

ghost use Rattle.std.specs.Prelude.{◌≡◌, ◌+◌, true, Ok, OnErr, IfOk};
ghost use Rattle.class_pool.specs.Pool.{member_at};
ghost use Rattle.frames.specs.Outcome.{HasGone};
ghost use Rattle.object_steps.specs.After.{does};
ghost use Rattle.object_steps.specs.Fields.{field_named, get_static, put_static};
ghost use Rattle.object_steps.specs.inside.Steps.{field_seen};

use crate::ending::{MISFIT, MISFITS, has_room, push_read};
use crate::named::{Named, field_named, kind_of_type, value_of_type};
use frames::{Failure, Fetched, Going, Here, stop_of, words_of};
use std::alloc::{AllocError, Global};
use word_steps::narrowed_to;
use world::World;

// Reads a static field. An `Err` changes nothing.
pub(crate) fn get_static(
    alloc: Global,
    world: &World,
    index: u16,
    fetched: &Fetched<'_>,
    here: &mut Here,
) -> Result<Going, AllocError>
    requires { fetched.now.next ≡ here.old.frame.pc + fetched.now.standing.instr.len }
    ensures gone { IfOk result (λ going. HasGone going here.old here.new
        (does fetched.now.standing here.old (get_static here.old (field_named world.now true (member_at fetched.now.standing.class.pool index))))) }
    ensures err { OnErr result (here.new ≡ here.old) }
{
    let field = match field_named(alloc, world, true, &fetched.class.pool, index)? {
        Err(construct) => return Ok(Going::Fails(Failure::Stops(stop_of(construct)))),
        Ok(field) => field.field,
    };
    let read = match here.statics.get(field) {
        None => Err(MISFIT),
        Some(value) => Ok(value),
    };
    push_read(read, 0, fetched, here)
}

// Puts the value on top into a static field, and goes on, where there is room.
fn write_static(world: &World, field: &Named<'_>, fetched: &Fetched<'_>, here: &mut Here) -> Going
    requires { fetched.now.next ≡ here.old.frame.pc + fetched.now.standing.instr.len }
    ensures { HasGone result here.old here.new (does fetched.now.standing here.old (put_static world.now here.old (Ok (field_seen field.now)))) }
{
    let desc = field.desc.as_slice();
    let Some(value) = value_of_type(world, &here.heap, desc, &here.frame.stack) else {
        return MISFITS;
    };
    let taken = words_of(kind_of_type(desc));
    let known = here.statics.get(field.field).is_some();
    if !(known && has_room(fetched, here, taken, 0)) {
        return MISFITS;
    }
    here.frame.stack.cut(taken);
    here.statics.set(field.field, narrowed_to(desc, value));
    here.frame.pc = fetched.next;
    Going::Goes
}

// Writes a static field. An `Err` changes nothing.
pub(crate) fn put_static(
    alloc: Global,
    world: &World,
    index: u16,
    fetched: &Fetched<'_>,
    here: &mut Here,
) -> Result<Going, AllocError>
    requires { fetched.now.next ≡ here.old.frame.pc + fetched.now.standing.instr.len }
    ensures gone { IfOk result (λ going. HasGone going here.old here.new
        (does fetched.now.standing here.old (put_static world.now here.old (field_named world.now true (member_at fetched.now.standing.class.pool index))))) }
    ensures err { OnErr result (here.new ≡ here.old) }
{
    match field_named(alloc, world, true, &fetched.class.pool, index)? {
        Err(construct) => Ok(Going::Fails(Failure::Stops(stop_of(construct)))),
        Ok(field) => Ok(write_static(world, &field, fetched, here)),
    }
}
