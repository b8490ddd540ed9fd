//! New arrays (JVMS 6.5.newarray, 6.5.anewarray).

ghost use Rattle.std.specs.Prelude.{◌≡◌, ◌<◌, ◌≤◌, ◌+◌, ◌^◌, ◌∷◌, length, drop, replicate, option_map, Ok, Err, OnOk, OnErr, IfOk};
ghost use Rattle.class_pool.specs.Pool.{class_name_at};
ghost use Rattle.descriptors.specs.Tests.{is_field};
ghost use Rattle.op_table.specs.declared.acts.Width.TheVariants as widths;
ghost use Rattle.frames.specs.declared.value.Value.TheVariants.{Ref};
ghost use Rattle.frames.specs.Heap.{default_of, free_number, with_cell};
ghost use Rattle.frames.specs.Outcome.{HasGone};
ghost use Rattle.frames.specs.Words.{popped_number};
ghost use Rattle.object_steps.specs.After.{does, heap_changed, left_at};
ghost use Rattle.object_steps.specs.Arrays.{make_array, make_popped, make_references, make_sized, size_of, type_of_kind};
ghost use Rattle.object_steps.specs.Classes.{class_known, type_named};

use crate::classes::class_known;
use crate::ending::{MISFITS, has_room};
use class_pool::Text;
use descriptors::{is_array, is_field_descriptor};
use frames::{
    Cell, Failure, Fetched, Going, Here, Raised, Slots, Stop, Value, default_of, one_int, stop_of,
};
use std::alloc::{AllocError, Global};
use world::World;

// The type of elements that the operand of newarray stands for.
fn type_of_kind(kind: i32) -> Option<&'static [u8]>
    ensures { option_map (λ t. t.now) result ≡ type_of_kind kind }
{
    match kind {
        4 => Some(b"Z".as_slice()),
        5 => Some(b"C".as_slice()),
        8 => Some(b"B".as_slice()),
        9 => Some(b"S".as_slice()),
        10 => Some(b"I".as_slice()),
        11 => Some(b"J".as_slice()),
        _ => None,
    }
}

// A count of elements, or that it is negative.
fn size_of(count: i32) -> Result<usize, Failure>
    ensures { result ≡ size_of count }
{
    if count < 0 {
        Err(Failure::Throws(Raised::NegativeSize))
    } else {
        Ok(count.unsigned_abs() as usize)
    }
}

// So many elements of the type in which nothing was stored.
fn new_items(alloc: Global, desc: &[u8], count: usize) -> Result<Vec<Value>, AllocError>
    ensures { IfOk result (λ items. items.items ≡ replicate count (default_of desc.now)) }
{
    let mut items = Vec::new(alloc);
    items.resize(count, default_of(desc))?;
    Ok(items)
}

// Puts a new array into the heap and its number in the place of its size, and goes on at the place. An `Err` changes
// nothing.
fn add_array(cell: Cell, next: u32, here: &mut Here) -> Result<(), AllocError>
    requires few { length here.old.heap < 2 ^ 32 }
    requires taken { 1 ≤ length here.old.frame.stack }
    ensures ok { OnOk result (here.new ≡ left_at next here.old (heap_changed here.old (Ref (free_number here.old.heap) ∷ drop 1 here.old.frame.stack) (with_cell cell here.old.heap))) }
    ensures err { OnErr result (here.new ≡ here.old) }
{
    let number = here.heap.free_number();
    here.heap.add(cell)?;
    let mut top = Value::Ref(number);
    here.frame.stack.swap_top(&mut top);
    here.frame.pc = next;
    Ok(())
}

// Makes an array of so many elements of the type, the number of which is on top. An `Err` changes nothing.
fn make_sized(
    alloc: Global,
    desc: &[u8],
    count: i32,
    fetched: &Fetched<'_>,
    here: &mut Here,
) -> Result<Going, AllocError>
    requires few { length here.old.heap < 2 ^ 32 }
    requires next { fetched.now.next ≡ here.old.frame.pc + fetched.now.standing.instr.len }
    requires taken { 1 ≤ length here.old.frame.stack }
    ensures gone { IfOk result (λ going. HasGone going here.old here.new
        (does fetched.now.standing here.old (make_sized here.old desc.now (drop 1 here.old.frame.stack) (size_of count)))) }
    ensures err { OnErr result (here.new ≡ here.old) }
{
    let size = match size_of(count) {
        Err(failure) => return Ok(Going::Fails(failure)),
        Ok(size) => size,
    };
    if !has_room(fetched, here, 1, 1) {
        return Ok(MISFITS);
    }
    let items = new_items(alloc, desc, size)?;
    let cell = Cell::Array {
        element: Text::from_slice(alloc, desc)?,
        items: Slots::from(items),
    };
    add_array(cell, fetched.next, here)?;
    Ok(Going::Goes)
}

// Makes an array of elements of the type, of which there are as many as the number on top says. An `Err` changes
// nothing.
fn make_popped(
    alloc: Global,
    desc: &[u8],
    fetched: &Fetched<'_>,
    here: &mut Here,
) -> Result<Going, AllocError>
    requires few { length here.old.heap < 2 ^ 32 }
    requires next { fetched.now.next ≡ here.old.frame.pc + fetched.now.standing.instr.len }
    ensures gone { IfOk result (λ going. HasGone going here.old here.new
        (does fetched.now.standing here.old (make_popped here.old desc.now (popped_number widths.Int here.old.frame.stack)))) }
    ensures err { OnErr result (here.new ≡ here.old) }
{
    match one_int(&here.frame.stack) {
        None => Ok(MISFITS),
        Some(count) => make_sized(alloc, desc, count, fetched, here),
    }
}

// Makes an array of numbers. An `Err` changes nothing.
pub(crate) fn make_array(
    alloc: Global,
    kind: i32,
    fetched: &Fetched<'_>,
    here: &mut Here,
) -> Result<Going, AllocError>
    requires few { length here.old.heap < 2 ^ 32 }
    requires next { fetched.now.next ≡ here.old.frame.pc + fetched.now.standing.instr.len }
    ensures gone { IfOk result (λ going. HasGone going here.old here.new
        (does fetched.now.standing here.old (make_array here.old (type_of_kind kind)))) }
    ensures err { OnErr result (here.new ≡ here.old) }
{
    match type_of_kind(kind) {
        None => Ok(Going::Fails(Failure::Stops(Stop::Support))),
        Some(desc) => make_popped(alloc, desc, fetched, here),
    }
}

// The type of arrays of elements of the type with this name.
fn array_type(alloc: Global, name: &[u8]) -> Result<Vec<u8>, AllocError>
    ensures { IfOk result (λ desc. desc.items ≡ 91 ∷ type_named name.now) }
{
    let mut desc = Vec::new(alloc);
    if is_array(name) {
        desc.push(b'[')?;
        desc.extend_from_slice(name)?;
    } else {
        desc.extend_from_slice(b"[L".as_slice())?;
        desc.extend_from_slice(name)?;
        desc.push(b';')?;
    }
    Ok(desc)
}

// Makes an array of references to what has the name. An `Err` changes nothing.
fn make_named(
    alloc: Global,
    name: &[u8],
    fetched: &Fetched<'_>,
    here: &mut Here,
) -> Result<Going, AllocError>
    requires few { length here.old.heap < 2 ^ 32 }
    requires next { fetched.now.next ≡ here.old.frame.pc + fetched.now.standing.instr.len }
    ensures gone { IfOk result (λ going. HasGone going here.old here.new
        (does fetched.now.standing here.old (make_references here.old (Ok name.now)))) }
    ensures err { OnErr result (here.new ≡ here.old) }
{
    let desc = array_type(alloc, name)?;
    match desc.as_slice() {
        [_, element @ ..] if is_field_descriptor(desc.as_slice()) => {
            make_popped(alloc, element, fetched, here)
        }
        _ => Ok(MISFITS),
    }
}

// Makes an array of references to what the Class entry names. An `Err` changes nothing.
pub(crate) fn make_references(
    alloc: Global,
    world: &World,
    index: u16,
    fetched: &Fetched<'_>,
    here: &mut Here,
) -> Result<Going, AllocError>
    requires few { length here.old.heap < 2 ^ 32 }
    requires next { fetched.now.next ≡ here.old.frame.pc + fetched.now.standing.instr.len }
    ensures gone { IfOk result (λ going. HasGone going here.old here.new
        (does fetched.now.standing here.old (make_references here.old (class_known world.now (class_name_at fetched.now.standing.class.pool index))))) }
    ensures err { OnErr result (here.new ≡ here.old) }
{
    match class_known(world, &fetched.class.pool, index) {
        Err(construct) => Ok(Going::Fails(Failure::Stops(stop_of(construct)))),
        Ok(name) => make_named(alloc, name.as_slice(), fetched, here),
    }
}
