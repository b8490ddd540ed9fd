//! What the entries of a pool refer to (JVMS 4.4).

ghost use Rattle.std.specs.Prelude.{◌≡◌, ◌+◌, ◌<◌, ◌^◌, is_some, sum_by};
ghost use Rattle.std.specs.Option.{option_copied};
ghost use Rattle.class_pool.specs.Pool.{constant_at, utf8_at, class_of, named_of, member_of};
ghost use Rattle.class_pool.specs.PoolReading.{first_of, unless, wrong_index, slot_link, slot_size, links_from};

use crate::constant::Constant;
use crate::fault::PoolFault;
use crate::text::Text;

/// The entry with this index.
pub(crate) fn entry_with(slots: &[Option<Constant>], index: u16) -> Option<&Constant>
    ensures { option_copied result ≡ constant_at slots.now index }
{
    match index {
        0 => None,
        _ => slots.get((index - 1) as usize)?.as_ref(),
    }
}

/// The text of the Utf8 entry with this index.
pub(crate) fn text_with(slots: &[Option<Constant>], index: u16) -> Option<&Text>
    ensures { option_copied result ≡ utf8_at slots.now index }
{
    match entry_with(slots, index)? {
        Constant::Utf8(text) => Some(text),
        _ => None,
    }
}

/// The index of the name of the Class entry with this index.
pub(crate) fn class_with(slots: &[Option<Constant>], index: u16) -> Option<u16>
    ensures { result ≡ class_of (constant_at slots.now index) }
{
    match entry_with(slots, index)? {
        Constant::Class(name) => Some(*name),
        _ => None,
    }
}

/// The indices of the name and the descriptor of the NameAndType entry with this index.
pub(crate) fn named_with(slots: &[Option<Constant>], index: u16) -> Option<(u16, u16)>
    ensures { result ≡ named_of (constant_at slots.now index) }
{
    match entry_with(slots, index)? {
        Constant::NameAndType { name, descriptor } => Some((*name, *descriptor)),
        _ => None,
    }
}

/// The tag of the member reference with this index, and the indices of its class and its NameAndType.
pub(crate) fn member_with(slots: &[Option<Constant>], index: u16) -> Option<(u8, u16, u16)>
    ensures { result ≡ member_of (constant_at slots.now index) }
{
    match entry_with(slots, index)? {
        Constant::Fieldref {
            class,
            name_and_type,
        } => Some((9, *class, *name_and_type)),
        Constant::Methodref {
            class,
            name_and_type,
        } => Some((10, *class, *name_and_type)),
        Constant::InterfaceMethodref {
            class,
            name_and_type,
        } => Some((11, *class, *name_and_type)),
        _ => None,
    }
}

/// The index, unless a text is there.
fn wrong_text(slots: &[Option<Constant>], index: u16) -> Option<u16>
    ensures { result ≡ unless (is_some (utf8_at slots.now index)) index }
{
    match text_with(slots, index) {
        Some(_) => None,
        None => Some(index),
    }
}

/// The first of the two indices that names no text.
fn wrong_texts(slots: &[Option<Constant>], name: u16, descriptor: u16) -> Option<u16>
    ensures { result ≡ first_of (unless (is_some (utf8_at slots.now name)) name) (unless (is_some (utf8_at slots.now descriptor)) descriptor) }
{
    match wrong_text(slots, name) {
        Some(index) => Some(index),
        None => wrong_text(slots, descriptor),
    }
}

/// The first of the two indices that doesn't name a Class or a NameAndType.
fn wrong_member(slots: &[Option<Constant>], class: u16, name_and_type: u16) -> Option<u16>
    ensures { result ≡ first_of (unless (is_some (class_of (constant_at slots.now class))) class) (unless (is_some (named_of (constant_at slots.now name_and_type))) name_and_type) }
{
    if class_with(slots, class).is_none() {
        Some(class)
    } else if named_with(slots, name_and_type).is_none() {
        Some(name_and_type)
    } else {
        None
    }
}

/// The first index of the entry that doesn't name what it must.
fn wrong_index(slots: &[Option<Constant>], entry: &Constant) -> Option<u16>
    ensures { result ≡ wrong_index slots.now entry.now }
{
    match entry {
        Constant::Class(name) => wrong_text(slots, *name),
        Constant::String(text) => wrong_text(slots, *text),
        Constant::NameAndType { name, descriptor } => wrong_texts(slots, *name, *descriptor),
        Constant::Fieldref {
            class,
            name_and_type,
        }
        | Constant::Methodref {
            class,
            name_and_type,
        }
        | Constant::InterfaceMethodref {
            class,
            name_and_type,
        } => wrong_member(slots, *class, *name_and_type),
        _ => None,
    }
}

/// Whether the entry names what it must. Its tag stands at this offset.
fn check_slot(slots: &[Option<Constant>], at: u32, slot: &Option<Constant>) -> Result<(), PoolFault>
    ensures { result ≡ slot_link slots.now at slot.now }
{
    let Some(entry) = slot else {
        return Ok(());
    };
    match wrong_index(slots, entry) {
        Some(index) => Err(PoolFault::BadIndex { at, index }),
        None => Ok(()),
    }
}

/// How many bytes the entry of an index takes.
fn slot_size(slot: &Option<Constant>) -> u32
    requires { slot_size slot.now < 2 ^ 32 }
    ensures { result ≡ slot_size slot.now }
{
    match slot {
        Some(entry) => entry.size(),
        None => 0,
    }
}

/// Whether each entry names what it must. The first one stands at the offset `start`.
#[tactic(auto, unfolding(crate::specs::PoolReading::links_from))]
pub(crate) fn check_links(slots: &[Option<Constant>], start: u32) -> Result<(), PoolFault>
    requires { start + sum_by slot_size slots.now < 2 ^ 32 }
    ensures { result ≡ links_from slots.now start slots.now }
{
    let mut at = start;
    for slot in slots {
        check_slot(slots, at, slot)?;
        at += slot_size(slot);
    }
    Ok(())
}
