//! Fields and methods (JVMS 4.5, 4.6).

ghost use Rattle.std.specs.Prelude.{◌≡◌, [], OnOk, IfOk};
ghost use Rattle.class_pool.specs.Pool.{utf8_at};
ghost use Rattle.class_reader.specs.Faults.{first_with};
ghost use Rattle.class_reader.specs.Met.{Tells, times, pushed};
ghost use Rattle.class_reader.specs.ClassReading.{descriptor_faults, descriptor_at, member_at, field_at, method_at, has_code, members_at, or_empty};
ghost use Rattle.class_reader.specs.MemberReading.{descriptor_test};

use crate::attributes::skip_attributes;
use crate::class::{Field, Method};
use crate::declared::{Declared, MemberKind};
use crate::fault::ClassFault;
use crate::flags::{is_abstract, is_native};
use crate::indices::{or_empty, read_index};
use crate::kept::{Cut, Kept};
use crate::method_code::read_method_code;
use class_pool::{Cursor, Pool, Sequence, Text};
use std::alloc::{AllocError, Global};

/// The flags of a member, and the indices of its name and its descriptor.
#[derive(Clone, Copy)]
struct MemberHead {
    flags: u16,
    name: u16,
    desc: u16,
}

/// Notes a text that is no descriptor of a member of this kind with these flags, whose index stands at the offset `at`.
#[tactic(auto, unfolding(crate::specs::Faults::first_with))]
fn note_descriptor(
    declared: &Declared<'_>,
    kind: MemberKind,
    flags: u16,
    at: u32,
    index: u16,
    kept: &mut Kept,
)
    ensures { kept.new ≡ first_with kept.old (descriptor_faults (descriptor_test kind flags) at (utf8_at declared.now.pool index)) }
{
    if declared.pool().utf8(index).is_some() {
        let is_wrong = !declared.is_descriptor(kind, flags, index);
        kept.note_if(is_wrong, ClassFault::BadDesc { at });
    }
}

/// The index of the descriptor of a member of this kind with these flags.
#[tactic(auto, using(crate::proofs::Keeping::first_with_behind), unfolding(crate::specs::Faults::first_with, crate::specs::ClassReading::descriptor_at))]
fn read_descriptor(
    declared: &Declared<'_>,
    kind: MemberKind,
    flags: u16,
    cursor: &mut Cursor<'_>,
    kept: &mut Kept,
) -> Result<u16, Cut>
    ensures { Tells (λ index. (utf8_at declared.now.pool index, cursor.new)) result kept.old kept.new (descriptor_at (descriptor_test kind flags) declared.now.pool cursor.old) }
{
    let at = cursor.at();
    let index = read_index(declared.pool(), cursor, kept)?;
    note_descriptor(declared, kind, flags, at, index, kept);
    Ok(index)
}

/// Flags, name and descriptor, behind other members.
#[tactic(auto, using(crate::proofs::Keeping::first_with_behind), unfolding(crate::specs::Faults::first_with, crate::specs::ClassReading::member_at))]
fn read_head(
    declared: &mut Declared<'_>,
    kind: MemberKind,
    cursor: &mut Cursor<'_>,
    kept: &mut Kept,
) -> Result<MemberHead, Cut>
    ensures same { OnOk result (declared.new.pool ≡ declared.old.pool) }
    ensures tells { Tells (λ head. (record { flags = head.flags; name = utf8_at declared.old.pool head.name; desc = utf8_at declared.old.pool head.desc }, declared.new.members, cursor.new)) result kept.old kept.new (member_at (descriptor_test kind) declared.old.pool (declared.old.members, cursor.old)) }
{
    let at = cursor.at();
    let flags = cursor.u2()?;
    let name = read_index(declared.pool(), cursor, kept)?;
    let desc = read_descriptor(declared, kind, flags, cursor, kept)?;
    let is_repeated = declared.add(name, desc)?;
    kept.note_if(is_repeated, ClassFault::Repeated { at });
    Ok(MemberHead { flags, name, desc })
}

/// The text with this index, or an empty one.
fn text_at(alloc: Global, pool: &Pool, index: u16) -> Result<Text, AllocError>
    ensures { IfOk result (λ text. text ≡ or_empty (utf8_at pool.now index)) }
{
    or_empty(alloc, pool.utf8(index))
}

/// A field, behind others.
#[tactic(auto, using(crate::proofs::Keeping::first_with_behind), unfolding(crate::specs::Faults::first_with, crate::specs::ClassReading::field_at))]
fn read_field(
    alloc: Global,
    declared: &mut Declared<'_>,
    cursor: &mut Cursor<'_>,
    kept: &mut Kept,
) -> Result<Field, Cut>
    ensures same { OnOk result (declared.new.pool ≡ declared.old.pool) }
    ensures tells { Tells (λ field. (field, (declared.new.members, cursor.new))) result kept.old kept.new (field_at declared.old.pool (declared.old.members, cursor.old)) }
{
    let head = read_head(declared, MemberKind::Field, cursor, kept)?;
    let pool = declared.pool();
    skip_attributes(pool, cursor, kept)?;
    Ok(Field {
        flags: head.flags,
        name: text_at(alloc, pool, head.name)?,
        desc: text_at(alloc, pool, head.desc)?,
    })
}

/// Whether a method with these flags has code.
fn has_code(flags: u16) -> bool
    ensures { result ≡ has_code flags }
{
    !(is_native(flags) || is_abstract(flags))
}

/// A method, behind others.
#[tactic(auto, using(crate::proofs::Keeping::first_with_behind), unfolding(crate::specs::Faults::first_with, crate::specs::ClassReading::method_at))]
fn read_method(
    alloc: Global,
    declared: &mut Declared<'_>,
    cursor: &mut Cursor<'_>,
    kept: &mut Kept,
) -> Result<Method, Cut>
    ensures same { OnOk result (declared.new.pool ≡ declared.old.pool) }
    ensures tells { Tells (λ method. (method, (declared.new.members, cursor.new))) result kept.old kept.new (method_at declared.old.pool (declared.old.members, cursor.old)) }
{
    let at = cursor.at();
    let head = read_head(declared, MemberKind::Method, cursor, kept)?;
    let pool = declared.pool();
    let code = read_method_code(alloc, pool, at, has_code(head.flags), cursor, kept)?;
    Ok(Method {
        flags: head.flags,
        name: text_at(alloc, pool, head.name)?,
        desc: text_at(alloc, pool, head.desc)?,
        code,
    })
}

/// So many fields.
fn read_so_many_fields(
    alloc: Global,
    declared: &mut Declared<'_>,
    count: u16,
    cursor: &mut Cursor<'_>,
    kept: &mut Kept,
) -> Result<Vec<Field>, Cut>
    ensures same { OnOk result (declared.new.pool ≡ declared.old.pool) }
    ensures tells { Tells (λ fields. (fields.items, (declared.new.members, cursor.new))) result kept.old kept.new (times (pushed (field_at declared.old.pool)) count ([], (declared.old.members, cursor.old))) }
{
    let mut fields = Vec::new(alloc);
    for _ in 0..count {
        let field = read_field(alloc, declared, cursor, kept)?;
        fields.push(field)?;
    }
    Ok(fields)
}

/// The fields of a class.
#[tactic(auto, using(crate::proofs::Keeping::first_with_behind), unfolding(crate::specs::Faults::first_with, crate::specs::ClassReading::members_at))]
pub(crate) fn read_fields(
    alloc: Global,
    declared: &mut Declared<'_>,
    cursor: &mut Cursor<'_>,
    kept: &mut Kept,
) -> Result<Sequence<Field>, Cut>
    ensures same { OnOk result (declared.new.pool ≡ declared.old.pool) }
    ensures tells { Tells (λ fields. (fields, cursor.new)) result kept.old kept.new (members_at (field_at declared.old.pool) cursor.old) }
{
    declared.clear();
    let count = cursor.u2()?;
    let fields = read_so_many_fields(alloc, declared, count, cursor, kept)?;
    Ok(Sequence::from(fields))
}

/// So many methods.
fn read_so_many_methods(
    alloc: Global,
    declared: &mut Declared<'_>,
    count: u16,
    cursor: &mut Cursor<'_>,
    kept: &mut Kept,
) -> Result<Vec<Method>, Cut>
    ensures same { OnOk result (declared.new.pool ≡ declared.old.pool) }
    ensures tells { Tells (λ methods. (methods.items, (declared.new.members, cursor.new))) result kept.old kept.new (times (pushed (method_at declared.old.pool)) count ([], (declared.old.members, cursor.old))) }
{
    let mut methods = Vec::new(alloc);
    for _ in 0..count {
        let method = read_method(alloc, declared, cursor, kept)?;
        methods.push(method)?;
    }
    Ok(methods)
}

/// The methods of a class.
#[tactic(auto, using(crate::proofs::Keeping::first_with_behind), unfolding(crate::specs::Faults::first_with, crate::specs::ClassReading::members_at))]
pub(crate) fn read_methods(
    alloc: Global,
    declared: &mut Declared<'_>,
    cursor: &mut Cursor<'_>,
    kept: &mut Kept,
) -> Result<Sequence<Method>, Cut>
    ensures same { OnOk result (declared.new.pool ≡ declared.old.pool) }
    ensures tells { Tells (λ methods. (methods, cursor.new)) result kept.old kept.new (members_at (method_at declared.old.pool) cursor.old) }
{
    declared.clear();
    let count = cursor.u2()?;
    let methods = read_so_many_methods(alloc, declared, count, cursor, kept)?;
    Ok(Sequence::from(methods))
}
