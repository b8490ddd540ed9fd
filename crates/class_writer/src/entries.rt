//! The constant pool, written (JVMS 4.4).

ghost use Rattle.std.specs.Prelude.{◌≡◌, ◌+◌, ◌<◌, ◌^◌, ◌∷◌, ◌++◌, length};
ghost use Rattle.std.specs.List.{AllByRecursion, flat_map};
ghost use Rattle.byteorder.specs.Endian.{big_bytes};
ghost use Rattle.class_writer.specs.Fitting.{TextFits, SlotFits};
ghost use Rattle.class_writer.specs.Putting.{Puts};
ghost use Rattle.class_writer.specs.Writing.{number_bytes, numbers_bytes, entry_bytes, slot_bytes, pool_bytes};

use crate::output::Output;
use class_pool::{Constant, Pool, Text};
use std::alloc::AllocError;

/// A tag and an index.
fn put_index(out: &mut Output, tag: u8, index: u16) -> Result<(), AllocError>
    ensures { Puts result out.old out.new (number_bytes tag 2 index) }
{
    out.u1(tag)?;
    out.u2(index)
}

/// A tag and two indices.
fn put_indices(out: &mut Output, tag: u8, first: u16, second: u16) -> Result<(), AllocError>
    ensures { Puts result out.old out.new (numbers_bytes tag 2 2 first second) }
{
    out.u1(tag)?;
    out.u2(first)?;
    out.u2(second)
}

/// A tag and four bytes.
fn put_int(out: &mut Output, tag: u8, bits: u32) -> Result<(), AllocError>
    ensures { Puts result out.old out.new (number_bytes tag 4 bits) }
{
    out.u1(tag)?;
    out.u4(bits)
}

/// A tag and eight bytes.
fn put_long(out: &mut Output, tag: u8, bits: u64) -> Result<(), AllocError>
    ensures { Puts result out.old out.new (number_bytes tag 8 bits) }
{
    out.u1(tag)?;
    out.long(bits)
}

/// A method handle (JVMS 4.4.8).
fn put_handle(out: &mut Output, kind: u8, reference: u16) -> Result<(), AllocError>
    ensures { Puts result out.old out.new (numbers_bytes 15 1 2 kind reference) }
{
    out.u1(15)?;
    out.u1(kind)?;
    out.u2(reference)
}

/// A text (JVMS 4.4.7).
fn put_text(out: &mut Output, text: &Text) -> Result<(), AllocError>
    requires { length text.now < 2 ^ 16 }
    ensures { Puts result out.old out.new (1 ∷ big_bytes 2 (length text.now) ++ text.now) }
{
    let bytes = text.as_slice();
    out.u1(1)?;
    out.u2(bytes.len() as u16)?;
    out.put(bytes)
}

/// An entry: a tag and a body.
fn put_entry(out: &mut Output, entry: &Constant) -> Result<(), AllocError>
    requires { TextFits entry.now }
    ensures { Puts result out.old out.new (entry_bytes entry.now) }
{
    match entry {
        Constant::Utf8(text) => put_text(out, text),
        Constant::Integer(bits) => put_int(out, 3, *bits),
        Constant::Float(bits) => put_int(out, 4, *bits),
        Constant::Long(bits) => put_long(out, 5, *bits),
        Constant::Double(bits) => put_long(out, 6, *bits),
        Constant::Class(name) => put_index(out, 7, *name),
        Constant::String(text) => put_index(out, 8, *text),
        Constant::Fieldref {
            class,
            name_and_type,
        } => put_indices(out, 9, *class, *name_and_type),
        Constant::Methodref {
            class,
            name_and_type,
        } => put_indices(out, 10, *class, *name_and_type),
        Constant::InterfaceMethodref {
            class,
            name_and_type,
        } => put_indices(out, 11, *class, *name_and_type),
        Constant::NameAndType { name, descriptor } => put_indices(out, 12, *name, *descriptor),
        Constant::MethodHandle { kind, reference } => put_handle(out, *kind, *reference),
        Constant::MethodType(descriptor) => put_index(out, 16, *descriptor),
        Constant::Dynamic {
            bootstrap,
            name_and_type,
        } => put_indices(out, 17, *bootstrap, *name_and_type),
        Constant::InvokeDynamic {
            bootstrap,
            name_and_type,
        } => put_indices(out, 18, *bootstrap, *name_and_type),
        Constant::Module(name) => put_index(out, 19, *name),
        Constant::Package(name) => put_index(out, 20, *name),
    }
}

/// What an index has: nothing behind a Long or a Double.
fn put_slot(out: &mut Output, slot: &Option<Constant>) -> Result<(), AllocError>
    requires { SlotFits slot.now }
    ensures { Puts result out.old out.new (slot_bytes slot.now) }
{
    match slot {
        Some(entry) => put_entry(out, entry),
        None => Ok(()),
    }
}

/// What each index has.
fn put_slots(out: &mut Output, slots: &[Option<Constant>]) -> Result<(), AllocError>
    requires { AllByRecursion SlotFits slots.now }
    ensures { Puts result out.old out.new (flat_map slot_bytes slots.now) }
{
    for slot in slots {
        put_slot(out, slot)?;
    }
    Ok(())
}

/// A count that is one more than the indices, and their entries.
#[tactic(auto, unfolding(crate::specs::Writing::pool_bytes))]
pub(crate) fn put_pool(out: &mut Output, pool: &Pool) -> Result<(), AllocError>
    requires room { length pool.now + 1 < 2 ^ 16 }
    requires texts { AllByRecursion SlotFits pool.now }
    ensures { Puts result out.old out.new (pool_bytes pool.now) }
{
    let slots = pool.entries();
    out.u2((slots.len() + 1) as u16)?;
    put_slots(out, slots)
}
