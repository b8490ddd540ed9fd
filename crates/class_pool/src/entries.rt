//! The entries of a pool, read from a file (JVMS 4.4).

ghost use Rattle.std.specs.Prelude.{◌≡◌, ◌==◌, ◌&&◌, ◌||◌, true, false};
ghost use Rattle.class_pool.specs.Pool.{is_wide};
ghost use Rattle.class_pool.specs.PoolReading.{Gives, checked_body_at, constant_from, is_wide_tag, is_wide_slot, slot_at, slots_at};

use crate::constant::Constant;
use crate::cursor::Cursor;
use crate::fault::PoolFault;
use crate::text::Text;
use crate::utf8::is_utf8;
use std::alloc::Global;

/// A length and a text of so many bytes (JVMS 4.4.7), behind the tag at this offset.
fn read_text(alloc: Global, at: u32, cursor: &mut Cursor<'_>) -> Result<Constant, PoolFault>
    ensures { Gives (λ x. (x, cursor.new)) result (checked_body_at at 1 cursor.old) }
{
    let len = cursor.u2()?;
    let bytes = cursor.take(u32::from(len))?;
    if !is_utf8(bytes) {
        return Err(PoolFault::BadUtf8 { at });
    }
    Ok(Constant::Utf8(Text::from_slice(alloc, bytes)?))
}

/// What stands behind the tag at this offset.
fn read_body(
    alloc: Global,
    at: u32,
    tag: u8,
    cursor: &mut Cursor<'_>,
) -> Result<Constant, PoolFault>
    ensures { Gives (λ x. (x, cursor.new)) result (checked_body_at at tag cursor.old) }
{
    match tag {
        1 => read_text(alloc, at, cursor),
        3 => Ok(Constant::Integer(cursor.u4()?)),
        4 => Ok(Constant::Float(cursor.u4()?)),
        5 => Ok(Constant::Long(cursor.long()?)),
        6 => Ok(Constant::Double(cursor.long()?)),
        7 => Ok(Constant::Class(cursor.u2()?)),
        8 => Ok(Constant::String(cursor.u2()?)),
        9 => Ok(Constant::Fieldref {
            class: cursor.u2()?,
            name_and_type: cursor.u2()?,
        }),
        10 => Ok(Constant::Methodref {
            class: cursor.u2()?,
            name_and_type: cursor.u2()?,
        }),
        11 => Ok(Constant::InterfaceMethodref {
            class: cursor.u2()?,
            name_and_type: cursor.u2()?,
        }),
        12 => Ok(Constant::NameAndType {
            name: cursor.u2()?,
            descriptor: cursor.u2()?,
        }),
        15 => Ok(Constant::MethodHandle {
            kind: cursor.u1()?,
            reference: cursor.u2()?,
        }),
        16 => Ok(Constant::MethodType(cursor.u2()?)),
        17 => Ok(Constant::Dynamic {
            bootstrap: cursor.u2()?,
            name_and_type: cursor.u2()?,
        }),
        18 => Ok(Constant::InvokeDynamic {
            bootstrap: cursor.u2()?,
            name_and_type: cursor.u2()?,
        }),
        19 => Ok(Constant::Module(cursor.u2()?)),
        20 => Ok(Constant::Package(cursor.u2()?)),
        _ => Err(PoolFault::BadTag { at, tag }),
    }
}

/// Whether the tag is that of a Long or a Double.
fn is_wide_tag(tag: u8) -> bool
    ensures { result ≡ is_wide_tag tag }
{
    tag == 5 || tag == 6
}

/// An entry, where so many indices are left behind its own.
#[tactic(auto, unfolding(crate::specs::PoolReading::constant_from, crate::specs::PoolReading::entry_at))]
fn read_entry(alloc: Global, left: u16, cursor: &mut Cursor<'_>) -> Result<Constant, PoolFault>
    ensures { Gives (λ x. (x, cursor.new)) result (constant_from left cursor.old) }
{
    let at = cursor.at();
    let tag = cursor.u1()?;
    if is_wide_tag(tag) && left == 0 {
        return Err(PoolFault::BadTag { at, tag });
    }
    read_body(alloc, at, tag, cursor)
}

/// What an index has: nothing in a gap, and else an entry.
fn read_slot(
    alloc: Global,
    left: u16,
    gap: bool,
    cursor: &mut Cursor<'_>,
) -> Result<Option<Constant>, PoolFault>
    ensures { Gives (λ x. (x, cursor.new)) result (slot_at left gap cursor.old) }
{
    if gap {
        return Ok(None);
    }
    Ok(Some(read_entry(alloc, left, cursor)?))
}

/// Whether nothing stands at the index behind this one.
fn is_wide_slot(slot: &Option<Constant>) -> bool
    ensures { result ≡ is_wide_slot slot.now }
{
    match slot {
        Some(entry) => entry.is_wide(),
        None => false,
    }
}

/// What so many indices have.
pub(crate) fn read_slots(
    alloc: Global,
    count: u16,
    cursor: &mut Cursor<'_>,
) -> Result<Vec<Option<Constant>>, PoolFault>
    ensures { Gives (λ x. (x.items, cursor.new)) result (slots_at count false cursor.old) }
{
    let mut slots = Vec::new(alloc);
    let mut gap = false;
    for index in 0..count {
        let slot = read_slot(alloc, count - index - 1, gap, cursor)?;
        gap = is_wide_slot(&slot);
        slots.push(slot)?;
    }
    Ok(slots)
}
