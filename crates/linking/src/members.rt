//! What a field instruction and the index of a class mean (JVMS 5.4.3.1, 5.4.3.2, 6.5).

ghost use Rattle.std.specs.Prelude.{◌≡◌, ◌<◌, length, IfOk};
ghost use Rattle.class_pool.specs.Pool.{class_name_at, member_at};
ghost use Rattle.world.specs.Tables.{HasField};
ghost use Rattle.world.specs.Resolution.{resolved_field};
ghost use Rattle.linking.specs.Told.{Tells, told};
ghost use Rattle.linking.specs.Members.{field_by, field_meant, innermost, is_field_for, is_known, known, made_by, made_of};

use crate::calls::is_same;
use crate::fault::LinkFault;
use crate::references::against_field;
use class_pool::{Pool, Text};
use class_reader::is_static;
use descriptors::{is_array, is_class, name_of};
use op_table::Construct;
use std::alloc::Global;
use world::{MemberId, World};

// The field that the name means in the class of this name.
#[tactic(auto, using(crate::proofs::Tellings::told_fault))]
fn resolved(
    alloc: Global,
    world: &World,
    class: &Text,
    name: &Text,
    desc: &Text,
) -> Result<MemberId, LinkFault>
    ensures there { IfOk result (λ m. HasField world.now m) }
    ensures exact { Tells result (told (resolved_field world.now class.now name.now desc.now)) }
{
    let field = world.resolve_field(alloc, class, name, desc)?;
    Ok(field)
}

// Whether the field is static exactly where the instruction is.
fn is_field_for(world: &World, is_static_access: bool, field: MemberId) -> bool
    requires { HasField world.now field }
    ensures { result ≡ is_field_for world.now is_static_access field }
{
    is_same(is_static(world.field_at(field).flags), is_static_access)
}

// The field that a name and a descriptor mean in the class of this name, for an instruction on static fields or not.
#[tactic(auto, unfolding(crate::specs::Members::field_meant))]
fn field_meant(
    alloc: Global,
    world: &World,
    is_static_access: bool,
    class: &Text,
    name: &Text,
    desc: &Text,
) -> Result<MemberId, LinkFault>
    ensures there { IfOk result (λ m. HasField world.now m) }
    ensures exact { Tells result (field_meant world.now is_static_access class.now name.now desc.now) }
{
    if is_array(class.as_slice()) {
        return Err(LinkFault::Against(Construct::MissingClass));
    }
    let field = resolved(alloc, world, class, name, desc)?;
    if is_field_for(world, is_static_access, field) {
        Ok(field)
    } else {
        Err(LinkFault::Against(Construct::Incompatible))
    }
}

/// The field that a field instruction means by a member reference of its class's pool (JVMS 5.4.3.2), for an instruction
/// on static fields or not.
///
/// # Errors
///
/// The first that stands against it: what `against_field` tells, then `MissingClass` where there is no such class, or it is
/// an array's, `MissingMember` where there is no such field, and `Incompatible` where it is static and the instruction
/// isn't, or the reverse.
#[tactic(auto, unfolding(crate::specs::Members::field_by))]
pub fn field_by(
    alloc: Global,
    world: &World,
    is_static_access: bool,
    pool: &Pool,
    index: u16,
) -> Result<MemberId, LinkFault>
    ensures there { IfOk result (λ m. HasField world.now m) }
    ensures exact { Tells result (field_by world.now is_static_access (member_at pool.now index)) }
{
    if let Some(construct) = against_field(pool, is_static_access, index) {
        return Err(LinkFault::Against(construct));
    }
    match pool.member(index) {
        Some((_, class, name, desc)) => field_meant(
            alloc,
            world,
            is_static_access,
            class,
            name,
            desc,
        ),
        None => Err(LinkFault::Against(Construct::Constant)),
    }
}

// The class of this name, of which objects can be made.
#[tactic(auto, unfolding(crate::specs::Members::made_of))]
fn made_of(world: &World, name: &Text) -> Result<u32, Construct>
    ensures exact { result ≡ made_of world.now name.now }
    ensures bound { IfOk result (λ c. c < length world.now) }
{
    if is_array(name.as_slice()) {
        return Err(Construct::MissingClass);
    }
    match world.class(name) {
        Some(class) => {
            if world.is_instantiable(class) {
                Ok(class)
            } else {
                Err(Construct::Incompatible)
            }
        }
        None => Err(Construct::MissingClass),
    }
}

/// The class that a Class entry names, of which objects can be made (JVMS 6.5.new).
///
/// # Errors
///
/// The first that stands against it: `Constant` where the index is no Class entry, `MissingClass` where there is no such
/// class, or it is an array's, `Incompatible` where it is abstract or an interface.
pub fn made_by(world: &World, pool: &Pool, index: u16) -> Result<u32, Construct>
    ensures exact { result ≡ made_by world.now (class_name_at pool.now index) }
    ensures bound { IfOk result (λ c. c < length world.now) }
{
    match pool.class_name(index) {
        Some(name) => made_of(world, name),
        None => Err(Construct::Constant),
    }
}

// The type behind the brackets of a descriptor.
#[tactic(auto, using(crate::proofs::Names::bracket_steps))]
fn innermost(desc: &[u8]) -> &[u8]
    ensures { result.now ≡ innermost desc.now }
{
    let mut rest = desc;
    while let [first, behind @ ..] = rest {
        if *first != b'[' {
            return rest;
        }
        rest = behind;
    }
    rest
}

// Whether there is a class or an array of this name.
#[tactic(auto, unfolding(crate::specs::Members::is_known))]
fn is_known(world: &World, name: &[u8]) -> bool
    ensures { result ≡ is_known world.now name.now }
{
    if is_array(name) {
        let element = innermost(name);
        !is_class(element) || world.class_named(name_of(element)).is_some()
    } else {
        world.class_named(name).is_some()
    }
}

/// What stands against the class or the array of this name: `MissingClass` where there is none (JVMS 5.4.3.1).
pub fn known(world: &World, name: &Text) -> Option<Construct>
    ensures { result ≡ known world.now name.now }
{
    if is_known(world, name.as_slice()) {
        None
    } else {
        Some(Construct::MissingClass)
    }
}
