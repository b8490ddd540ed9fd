//! Attributes (JVMS 4.7).

ghost use Rattle.std.specs.Prelude.{◌≡◌};
ghost use Rattle.class_pool.specs.Pool.{utf8_at};
ghost use Rattle.class_reader.specs.Met.{Tells, times, times_at};
ghost use Rattle.class_reader.specs.ClassReading.{attribute_at, skipped_at, is_code};

use crate::indices::read_index;
use crate::kept::{Cut, Kept};
use class_pool::{Cursor, Pool};

/// An attribute as it stands in the file.
#[derive(Drop)]
pub(crate) struct StoredAttribute<'a> {
    /// Where the index of its name stands.
    pub at: u32,
    /// The index of its name.
    pub name: u16,
    /// Its bytes.
    pub body: Cursor<'a>,
}

/// An attribute, whose bytes are taken whole.
#[tactic(auto, using(crate::proofs::Keeping::first_with_behind), unfolding(crate::specs::Faults::first_with, crate::specs::ClassReading::attribute_at))]
pub(crate) fn read_attribute<'a>(
    pool: &Pool,
    cursor: &mut Cursor<'a>,
    kept: &mut Kept,
) -> Result<StoredAttribute<'a>, Cut>
    ensures { Tells (λ attribute. (record { at = attribute.at; name = utf8_at pool.now attribute.name; body = attribute.body }, cursor.new)) result kept.old kept.new (attribute_at pool.now cursor.old) }
{
    let at = cursor.at();
    let name = read_index(pool, cursor, kept)?;
    let len = cursor.u4()?;
    let start = cursor.at();
    let bytes = cursor.take(len)?;
    let _end = cursor.at();
    let body = Cursor::new(bytes, start);
    Ok(StoredAttribute { at, name, body })
}

/// Skips an attribute.
#[tactic(auto, using(crate::proofs::Keeping::first_with_behind), unfolding(crate::specs::Faults::first_with, crate::specs::ClassReading::skipped_at))]
fn skip_attribute(pool: &Pool, cursor: &mut Cursor<'_>, kept: &mut Kept) -> Result<(), Cut>
    ensures { Tells (λ _. cursor.new) result kept.old kept.new (skipped_at pool.now cursor.old) }
{
    read_attribute(pool, cursor, kept)?;
    Ok(())
}

/// Skips so many attributes.
fn skip_so_many(
    pool: &Pool,
    count: u16,
    cursor: &mut Cursor<'_>,
    kept: &mut Kept,
) -> Result<(), Cut>
    ensures { Tells (λ _. cursor.new) result kept.old kept.new (times (skipped_at pool.now) count cursor.old) }
{
    for _ in 0..count {
        skip_attribute(pool, cursor, kept)?;
    }
    Ok(())
}

/// Skips a count, and so many attributes.
#[tactic(auto, using(crate::proofs::Keeping::first_with_behind), unfolding(crate::specs::Faults::first_with, crate::specs::Met::times_at))]
pub(crate) fn skip_attributes(
    pool: &Pool,
    cursor: &mut Cursor<'_>,
    kept: &mut Kept,
) -> Result<(), Cut>
    ensures { Tells (λ _. cursor.new) result kept.old kept.new (times_at (skipped_at pool.now) cursor.old) }
{
    let count = cursor.u2()?;
    skip_so_many(pool, count, cursor, kept)
}
