//! What a call means (JVMS 5.4.3.3, 6.5).

ghost use Rattle.std.specs.Prelude.{◌≡◌, ◌<◌, length, IfOk, All};
ghost use Rattle.class_pool.specs.Pool.{member_at};
ghost use Rattle.class_hierarchy.specs.World.{class_at};
ghost use Rattle.world.specs.Resolution.{resolved_method};
ghost use Rattle.world.specs.Selection.{method_of};
ghost use Rattle.world.specs.Tables.{HasMethod};
ghost use Rattle.linking.specs.Told.{Tells, told};
ghost use Rattle.linking.specs.Calls.{called, called_by, fits, found, from_superclass, is_constructor, is_same, is_static_call, is_super_call, linked, looked_up, meant, meant_by};

use crate::fault::LinkFault;
use crate::references::against_call;
use crate::targets::run_by;
use class_pool::{Pool, Sequence, Text};
use class_reader::is_static;
use op_table::Construct;
use op_table::acts::Call;
use std::alloc::Global;
use world::{MemberId, World};

const INCOMPATIBLE: LinkFault = LinkFault::Against(Construct::Incompatible);

/// The name of constructors (JVMS 2.9.1).
const INIT: &[u8] = b"<init>";

/// The class that a call names, and a method: the one that the name means there, or the one that is looked up.
#[derive(Clone, Copy)]
pub struct Meant {
    pub class: u32,
    pub method: MemberId,
}

// The method that the name means in the class of this name.
#[tactic(auto, using(crate::proofs::Tellings::told_fault))]
fn resolved(
    alloc: Global,
    world: &World,
    class: &Text,
    name: &Text,
    desc: &Text,
) -> Result<MemberId, LinkFault>
    ensures there { IfOk result (λ m. HasMethod world.now m) }
    ensures exact { Tells result (told (resolved_method world.now class.now name.now desc.now)) }
{
    let method = world.resolve_method(alloc, class, name, desc)?;
    Ok(method)
}

/// Whether both are so or neither is.
pub(crate) fn is_same(a: bool, b: bool) -> bool
    ensures { result ≡ is_same a b }
{
    if a { b } else { !b }
}

fn is_static_call(call: Call) -> bool
    ensures { result ≡ is_static_call call }
{
    matches!(call, Call::Static)
}

// The method, where it is static exactly where the call is.
fn fitting(world: &World, call: Call, method: MemberId) -> Result<MemberId, LinkFault>
    requires { HasMethod world.now method }
    ensures there { IfOk result (λ m. HasMethod world.now m) }
    ensures exact { Tells result (fits world.now call method) }
{
    if is_same(
        is_static(world.method_at(method).flags),
        is_static_call(call),
    ) {
        Ok(method)
    } else {
        Err(INCOMPATIBLE)
    }
}

// The class that a call names, and the method that the name and the descriptor mean there.
#[tactic(auto, unfolding(crate::specs::Calls::meant, world::specs::Resolution::resolved_method))]
fn named(
    alloc: Global,
    world: &World,
    call: Call,
    class: &Text,
    name: &Text,
    desc: &Text,
) -> Result<Meant, LinkFault>
    ensures there { IfOk result (λ m. HasMethod world.now m.method) }
    ensures bound { IfOk result (λ m. m.class < length world.now) }
    ensures exact { Tells result (meant world.now call class.now name.now desc.now) }
{
    let Some(number) = world.class(class) else {
        return Err(LinkFault::Against(Construct::MissingClass));
    };
    let method = resolved(alloc, world, class, name, desc)?;
    let method = fitting(world, call, method)?;
    Ok(Meant {
        class: number,
        method,
    })
}

// Whether the method is a constructor (JVMS 2.9.1).
fn is_constructor(world: &World, method: MemberId) -> bool
    requires { HasMethod world.now method }
    ensures { result ≡ is_constructor (method_of world.now method) }
{
    world.method_at(method).name.as_slice() == INIT
}

// Whether an invokespecial looks its method up from the direct superclass on (JVMS 6.5.invokespecial).
fn is_super_call(world: &World, current: u32, meant: Meant) -> bool
    requires { HasMethod world.now meant.method }
    ensures { result ≡ is_super_call world.now current meant }
{
    !is_constructor(world, meant.method)
        && (world.is_below(current, meant.class) && meant.class != current)
        && !world.is_interface(meant.class)
}

// The method of the same name and descriptor, from the direct superclass of the current class on.
fn from_superclass(
    alloc: Global,
    world: &World,
    current: u32,
    method: MemberId,
) -> Result<MemberId, LinkFault>
    requires { HasMethod world.now method }
    ensures there { IfOk result (λ m. HasMethod world.now m) }
    ensures exact { Tells result (from_superclass world.now (method_of world.now method) (class_at world.now current).super_name) }
{
    let method = world.method_at(method);
    match &world.record_at(current).super_name {
        Some(name) => resolved(alloc, world, name, &method.name, &method.desc),
        None => Err(LinkFault::Against(Construct::MissingMember)),
    }
}

// The method that a call finds.
fn found(
    alloc: Global,
    world: &World,
    current: u32,
    call: Call,
    meant: Meant,
) -> Result<MemberId, LinkFault>
    requires { HasMethod world.now meant.method }
    ensures there { IfOk result (λ m. HasMethod world.now m) }
    ensures exact { Tells result (found world.now current call meant) }
{
    match call {
        Call::Special => {
            if is_super_call(world, current, meant) {
                from_superclass(alloc, world, current, meant.method)
            } else {
                Ok(meant.method)
            }
        }
        Call::Virtual | Call::Static | Call::Interface => Ok(meant.method),
    }
}

/// The method that a call in the current class looks up, by what it means: for a call of a superclass's method by
/// `invokespecial` the one that is found from the direct superclass on (JVMS 6.5.invokespecial), else the one that is meant.
///
/// # Errors
///
/// No such method, or not the only one, and one that is static where the call isn't, or the reverse.
#[tactic(auto, unfolding(crate::specs::Calls::looked_up))]
pub fn looked_up(
    alloc: Global,
    world: &World,
    current: u32,
    call: Call,
    meant: Meant,
) -> Result<MemberId, LinkFault>
    requires { HasMethod world.now meant.method }
    ensures there { IfOk result (λ m. HasMethod world.now m) }
    ensures exact { Tells result (looked_up world.now current call meant) }
{
    let method = found(alloc, world, current, call, meant)?;
    fitting(world, call, method)
}

// The class that a call names, and the method that is looked up.
#[tactic(auto, unfolding(crate::specs::Calls::linked))]
fn linked(
    alloc: Global,
    world: &World,
    current: u32,
    call: Call,
    class: &Text,
    name: &Text,
    desc: &Text,
) -> Result<Meant, LinkFault>
    ensures there { IfOk result (λ m. HasMethod world.now m.method) }
    ensures bound { IfOk result (λ m. m.class < length world.now) }
    ensures exact { Tells result (linked world.now current call class.now name.now desc.now) }
{
    let meant = named(alloc, world, call, class, name, desc)?;
    let method = looked_up(alloc, world, current, call, meant)?;
    Ok(Meant {
        class: meant.class,
        method,
    })
}

/// The class that a call names by a member reference of its pool, and the method that the name and the descriptor mean
/// there (JVMS 5.4.3.3).
///
/// # Errors
///
/// The first that stands against it: what `against_call` tells, a class or a method that isn't there or isn't the only
/// one, and a method that is static where the call isn't, or the reverse.
#[tactic(auto, unfolding(crate::specs::Calls::meant_by))]
pub fn meant_by(
    alloc: Global,
    world: &World,
    call: Call,
    pool: &Pool,
    index: u16,
) -> Result<Meant, LinkFault>
    ensures there { IfOk result (λ m. HasMethod world.now m.method) }
    ensures bound { IfOk result (λ m. m.class < length world.now) }
    ensures exact { Tells result (meant_by world.now call (member_at pool.now index)) }
{
    if let Some(construct) = against_call(pool, index) {
        return Err(LinkFault::Against(construct));
    }
    match pool.member(index) {
        Some((_, class, name, desc)) => named(alloc, world, call, class, name, desc),
        None => Err(LinkFault::Against(Construct::Constant)),
    }
}

// The methods that a call can run, where a class, a name and a descriptor are named.
#[tactic(auto, unfolding(crate::specs::Calls::called))]
fn called(
    alloc: Global,
    world: &World,
    current: u32,
    call: Call,
    class: &Text,
    name: &Text,
    desc: &Text,
) -> Result<Sequence<MemberId>, LinkFault>
    ensures there { IfOk result (λ ts. All (HasMethod world.now) ts) }
    ensures exact { Tells result (called world.now current call class.now name.now desc.now) }
{
    let linked = linked(alloc, world, current, call, class, name, desc)?;
    run_by(alloc, world, call, linked)
}

/// The methods that a call in the current class can run by a member reference of its pool: for `invokespecial` and
/// `invokestatic` the one that is looked up, else those that the classes of receivers select, in the order of the names of
/// their classes.
///
/// # Errors
///
/// The first that stands against it, but for what `against_call` tells of a member reference, which isn't looked at here:
/// as of `meant_by`, then of `looked_up`, then what receivers' classes meet, an abstract method that isn't selected by a receiver, and a native
/// method.
pub fn called_by(
    alloc: Global,
    world: &World,
    current: u32,
    call: Call,
    pool: &Pool,
    index: u16,
) -> Result<Sequence<MemberId>, LinkFault>
    ensures there { IfOk result (λ ts. All (HasMethod world.now) ts) }
    ensures exact { Tells result (called_by world.now current call (member_at pool.now index)) }
{
    match pool.member(index) {
        Some((_, class, name, desc)) => called(alloc, world, current, call, class, name, desc),
        None => Err(LinkFault::Against(Construct::Constant)),
    }
}
