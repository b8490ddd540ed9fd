//! The constant pool (JVMS 4.4).

ghost use Rattle.std.specs.Prelude.{◌≡◌, ◌≢◌, ◌↔◌, IfOk, IfErr, IsSome, option_map};
ghost use Rattle.std.specs.Option.{option_copied};
ghost use Rattle.class_pool.specs.declared.fault.PoolFault.TheVariants.{Memory};
ghost use Rattle.class_pool.specs.Pieces.{StartsWith};
ghost use Rattle.class_pool.specs.Pool.{IsPool, constant_at, class_of, named_of, member_of, utf8_at, class_name_at, name_and_type_at, member_at, int_at, long_at, texts_at};
ghost use Rattle.class_pool.specs.PoolReading.{Gives, pool_at};
ghost use Rattle.class_pool.specs.FirstFault.{IsFirstFault};

use crate::constant::Constant;
use crate::cursor::Cursor;
use crate::entries::read_slots;
use crate::fault::PoolFault;
use crate::links::{check_links, class_with, entry_with, member_with, named_with, text_with};
use crate::text::Text;
use std::alloc::Global;
use std::marker::Model;

/// The constant pool of a class. Contracts see the list of what its indices have, from 1 on.
#[derive(Drop)]
pub struct Pool {
    slots: Vec<Option<Constant>>,
}

impl Model for Pool {
    ghost use Rattle.std.specs.Prelude.{List, Option};
    ghost use Rattle.std.specs.List.{AllByRecursion};
    ghost use Rattle.class_pool.specs.declared.constant.Constant.{Constant};
    ghost use Rattle.class_pool.specs.Pool.{IsLinkedSlot};

    ghost Value = { List (Option Constant) };

    ghost view = { λ p. p.slots.items };

    ghost invariant = { λ p. AllByRecursion (IsLinkedSlot p.slots.items) p.slots.items };
}

/// The texts of two indices.
fn texts_with(slots: &[Option<Constant>], name: u16, descriptor: u16) -> Option<(&Text, &Text)>
    ensures { option_map (λ r. (r.0.now, r.1.now)) result ≡ texts_at slots.now (name, descriptor) }
{
    Some((text_with(slots, name)?, text_with(slots, descriptor)?))
}

/// The name and the descriptor of the NameAndType entry with this index.
fn name_and_type_with(slots: &[Option<Constant>], index: u16) -> Option<(&Text, &Text)>
    ensures { option_map (λ r. (r.0.now, r.1.now)) result ≡ name_and_type_at slots.now index }
{
    let (name, descriptor) = named_with(slots, index)?;
    texts_with(slots, name, descriptor)
}

/// The name of the Class entry with this index.
fn class_name_with(slots: &[Option<Constant>], index: u16) -> Option<&Text>
    ensures { option_copied result ≡ class_name_at slots.now index }
{
    text_with(slots, class_with(slots, index)?)
}

/// The tag of the member reference with this index, the name of its class, its name and its descriptor.
fn member_texts_with(slots: &[Option<Constant>], index: u16) -> Option<(u8, &Text, &Text, &Text)>
    ensures { option_map (λ r. (r.0, r.1.now, r.2.now, r.3.now)) result ≡ member_at slots.now index }
{
    let (tag, class, named) = member_with(slots, index)?;
    let class = class_name_with(slots, class)?;
    let (name, descriptor) = name_and_type_with(slots, named)?;
    Some((tag, class, name, descriptor))
}

/// A count, what one index less than it says has, and its links.
#[tactic(auto, unfolding(crate::specs::PoolReading::pool_at, crate::specs::PoolReading::table_at))]
fn read_pool(alloc: Global, cursor: &mut Cursor<'_>) -> Result<Pool, PoolFault>
    ensures { Gives (λ x. (x, cursor.new)) result (pool_at cursor.old) }
{
    cursor.has_bytes();
    let count = cursor.u2()?;
    let start = cursor.at();
    let slots = read_slots(alloc, count.saturating_sub(1), cursor)?;
    let _end = cursor.at();
    check_links(&slots, start)?;
    Ok(Pool { slots })
}

impl Pool {
    /// The pool that the cursor stands at, and the cursor after it (JVMS 4.1, 4.4).
    ///
    /// # Errors
    ///
    /// The first fault of the bytes up to the pool's end, and where there is none, the first of the
    /// entries' links; `Memory` where memory runs out.
    pub fn read<'a>(alloc: Global, mut cursor: Cursor<'a>) -> Result<(Pool, Cursor<'a>), PoolFault>
        // A pool stands between the two places.
        ensures found { IfOk result (λ r. StartsWith IsPool cursor.entry r.0 r.1) }

        // The fault is the first one.
        ensures fault { IfErr result (λ e. e ≢ Memory → IsFirstFault cursor.entry e) }
        ensures exact { Gives (λ r. (r.0, r.1)) result (pool_at cursor.entry) }
    {
        cursor.has_bytes();
        let pool = read_pool(alloc, &mut cursor)?;
        Ok((pool, cursor))
    }

    /// What each index has, from 1 on: nothing behind a Long or a Double.
    pub fn entries(&self) -> &[Option<Constant>]
        ensures { result.now ≡ self.now }
    {
        self.slots.as_slice()
    }

    /// The text of the Utf8 entry with this index.
    pub fn utf8(&self, index: u16) -> Option<&Text>
        ensures { option_copied result ≡ utf8_at self.now index }
    {
        text_with(&self.slots, index)
    }

    /// The name of the Class entry with this index.
    pub fn class_name(&self, index: u16) -> Option<&Text>
        ensures name { option_copied result ≡ class_name_at self.now index }
        ensures kind { IsSome result ↔ IsSome (class_of (constant_at self.now index)) }
    {
        class_name_with(&self.slots, index)
    }

    /// The name and the descriptor of the NameAndType entry with this index.
    pub fn name_and_type(&self, index: u16) -> Option<(&Text, &Text)>
        ensures kind { IsSome result ↔ IsSome (named_of (constant_at self.now index)) }
        ensures names { option_map (λ r. (r.0.now, r.1.now)) result ≡ name_and_type_at self.now index }
    {
        name_and_type_with(&self.slots, index)
    }

    /// The tag of the member reference with this index, the name of its class, its name and its descriptor.
    pub fn member(&self, index: u16) -> Option<(u8, &Text, &Text, &Text)>
        ensures kind { IsSome result ↔ IsSome (member_of (constant_at self.now index)) }
        ensures names { option_map (λ r. (r.0, r.1.now, r.2.now, r.3.now)) result ≡ member_at self.now index }
    {
        member_texts_with(&self.slots, index)
    }

    /// The int of the Integer entry with this index.
    pub fn int(&self, index: u16) -> Option<i32>
        ensures { result ≡ int_at self.now index }
    {
        match entry_with(&self.slots, index)? {
            Constant::Integer(bits) => Some(bits.cast_signed()),
            _ => None,
        }
    }

    /// The long of the Long entry with this index.
    pub fn long(&self, index: u16) -> Option<i64>
        ensures { result ≡ long_at self.now index }
    {
        match entry_with(&self.slots, index)? {
            Constant::Long(bits) => Some(bits.cast_signed()),
            _ => None,
        }
    }
}
