//! Indices into the constant pool (JVMS 4.4), and what they name.

ghost use Rattle.std.specs.Prelude.{◌≡◌, IfOk};
ghost use Rattle.std.specs.Option.{option_copied};
ghost use Rattle.class_pool.specs.Pool.{utf8_at, class_name_at};
ghost use Rattle.class_reader.specs.Faults.{first_with};
ghost use Rattle.class_reader.specs.Met.{Tells};
ghost use Rattle.class_reader.specs.ClassReading.{index_faults, index_at, name_at, or_empty};

use crate::fault::ClassFault;
use crate::kept::{Cut, Kept};
use class_pool::{Cursor, Pool, PoolFault, Text};
use std::alloc::{AllocError, Global};

/// Notes that an index at this offset names nothing.
#[tactic(auto, unfolding(crate::specs::Faults::first_with))]
pub(crate) fn note_index(text: Option<&Text>, at: u32, index: u16, kept: &mut Kept)
    ensures { kept.new ≡ first_with kept.old (index_faults at index (option_copied text.entry)) }
{
    let is_wrong = text.is_none();
    if is_wrong {
        kept.note(ClassFault::Pool(PoolFault::BadIndex { at, index }));
    }
}

/// The next index, which should name a text.
#[tactic(auto, unfolding(crate::specs::Faults::first_with, crate::specs::ClassReading::index_at))]
pub(crate) fn read_index(pool: &Pool, cursor: &mut Cursor<'_>, kept: &mut Kept) -> Result<u16, Cut>
    ensures { Tells (λ index. (utf8_at pool.now index, cursor.new)) result kept.old kept.new (index_at (utf8_at pool.now) cursor.old) }
{
    let at = cursor.at();
    let index = cursor.u2()?;
    note_index(pool.utf8(index), at, index, kept);
    Ok(index)
}

/// The text, or an empty one.
pub(crate) fn or_empty(alloc: Global, text: Option<&Text>) -> Result<Text, AllocError>
    ensures { IfOk result (λ t. t ≡ or_empty (option_copied text.entry)) }
{
    match text {
        Some(text) => text.share(),
        None => Text::from_slice(alloc, &[]),
    }
}

/// The name of the class that the next index names.
#[tactic(auto, unfolding(crate::specs::Faults::first_with, crate::specs::ClassReading::index_at, crate::specs::ClassReading::name_at))]
pub(crate) fn read_class_name(
    alloc: Global,
    pool: &Pool,
    cursor: &mut Cursor<'_>,
    kept: &mut Kept,
) -> Result<Text, Cut>
    ensures { Tells (λ name. (name, cursor.new)) result kept.old kept.new (name_at (class_name_at pool.now) cursor.old) }
{
    let at = cursor.at();
    let index = cursor.u2()?;
    let name = pool.class_name(index);
    note_index(name, at, index, kept);
    Ok(or_empty(alloc, name)?)
}
