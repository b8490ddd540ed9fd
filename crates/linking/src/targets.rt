//! The methods that a linked call can run (JVMS 5.4.6, 6.5).

ghost use Rattle.std.specs.Prelude.{◌≡◌, IfOk, All};
ghost use Rattle.std.specs.List.{list_any};
ghost use Rattle.class_reader.specs.Flags as flag;
ghost use Rattle.world.specs.Selection.{method_of};
ghost use Rattle.world.specs.Tables as tables;
ghost use Rattle.world.specs.Tables.{HasMethod};
ghost use Rattle.linking.specs.Told.{Tells, told};
ghost use Rattle.linking.specs.TargetList.{targets_of};
ghost use Rattle.linking.specs.Calls.{dispatched, none_native, run_by, with_code};

use crate::calls::Meant;
use crate::fault::LinkFault;
use class_pool::Sequence;
use class_reader::{is_abstract, is_native};
use op_table::Construct;
use op_table::acts::Call;
use std::alloc::Global;
use world::{MemberId, ResolveFault, World};

// The method alone, where it isn't abstract.
fn with_code(
    alloc: Global,
    world: &World,
    method: MemberId,
) -> Result<Sequence<MemberId>, LinkFault>
    requires { HasMethod world.now method }
    ensures there { IfOk result (λ ts. All (HasMethod world.now) ts) }
    ensures exact { Tells result (with_code world.now method) }
{
    if is_abstract(world.method_at(method).flags) {
        return Err(LinkFault::Against(Construct::AbstractTarget));
    }
    let mut methods = Sequence::new(alloc);
    methods.push(method)?;
    Ok(methods)
}

// The methods that receivers' classes select, or the first kind of fault.
fn listed(alloc: Global, world: &World, linked: Meant) -> Result<Sequence<MemberId>, ResolveFault>
    requires { HasMethod world.now linked.method }
    ensures there { IfOk result (λ ts. All (HasMethod world.now) ts) }
    ensures exact { tables.Tells result (targets_of world.now linked.class linked.method) }
{
    world.well_built();
    match world.targets_in(alloc, linked.class, linked.method) {
        Ok(targets) => Ok(Sequence::from(targets)),
        Err(fault) => Err(fault),
    }
}

// The methods that receivers' classes select.
#[tactic(auto, using(crate::proofs::Tellings::told_fault))]
fn selected(alloc: Global, world: &World, linked: Meant) -> Result<Sequence<MemberId>, LinkFault>
    requires { HasMethod world.now linked.method }
    ensures there { IfOk result (λ ts. All (HasMethod world.now) ts) }
    ensures exact { Tells result (told (targets_of world.now linked.class linked.method)) }
{
    let targets = listed(alloc, world, linked)?;
    Ok(targets)
}

// The method itself, or the ones that receivers' classes select.
fn dispatched(
    alloc: Global,
    world: &World,
    call: Call,
    linked: Meant,
) -> Result<Sequence<MemberId>, LinkFault>
    requires { HasMethod world.now linked.method }
    ensures there { IfOk result (λ ts. All (HasMethod world.now) ts) }
    ensures exact { Tells result (dispatched world.now call linked) }
{
    match call {
        Call::Special | Call::Static => with_code(alloc, world, linked.method),
        Call::Virtual | Call::Interface => selected(alloc, world, linked),
    }
}

// Whether one of the methods is native.
fn has_native(world: &World, methods: &[MemberId]) -> bool
    requires { All (HasMethod world.now) methods.now }
    ensures { result ≡ list_any (λ t. flag.is_native (method_of world.now t).flags) methods.now }
{
    for method in methods {
        if is_native(world.method_at(*method).flags) {
            return true;
        }
    }
    false
}

// The methods, where none is native.
fn without_native(
    world: &World,
    methods: Sequence<MemberId>,
) -> Result<Sequence<MemberId>, LinkFault>
    requires { All (HasMethod world.now) methods }
    ensures there { IfOk result (λ ts. All (HasMethod world.now) ts) }
    ensures exact { Tells result (none_native world.now methods) }
{
    if has_native(world, methods.as_slice()) {
        return Err(LinkFault::Against(Construct::Native));
    }
    Ok(methods)
}

// The methods that run, where none is native.
pub(crate) fn run_by(
    alloc: Global,
    world: &World,
    call: Call,
    linked: Meant,
) -> Result<Sequence<MemberId>, LinkFault>
    requires { HasMethod world.now linked.method }
    ensures there { IfOk result (λ ts. All (HasMethod world.now) ts) }
    ensures exact { Tells result (run_by world.now call linked) }
{
    let methods = dispatched(alloc, world, call, linked)?;
    without_native(world, methods)
}
