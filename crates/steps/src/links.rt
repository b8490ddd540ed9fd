//! What calls mean and look up, and what stops the run where nothing stands there.

ghost use Rattle.std.specs.Prelude.{◌≡◌, ◌<◌, length, IfOk};
ghost use Rattle.std.specs.Result.{result_ok};
ghost use Rattle.class_pool.specs.Pool.{member_at};
ghost use Rattle.world.specs.Selection.{selected_by};
ghost use Rattle.world.specs.Tables.{HasMethod};
ghost use Rattle.linking.specs.Calls.{looked_up, meant_by};
ghost use Rattle.frames.specs.Outcome.{stop_of};
ghost use Rattle.steps.specs.inside.Stepping.{IsLinked, IsUnlinked, Links};

use crate::halt::Halt;
use class_pool::Pool;
use frames::{Failure, Stop, stop_of};
use linking::{LinkFault, Meant, looked_up, meant_by};
use op_table::acts::Call;
use std::alloc::Global;
use world::{MemberId, ResolveFault, World};

pub(crate) const UNLINKED: Halt = Halt::Fails(Failure::Stops(Stop::Link));

// The method that an object's class selects (JVMS 5.4.6).
pub(crate) fn select(
    alloc: Global,
    world: &World,
    method: MemberId,
    class: u32,
) -> Result<MemberId, Halt>
    requires { HasMethod world.now method }
    ensures { Links result (result_ok (selected_by world.now method class)) }
{
    match world.selected_by(alloc, method, class) {
        Ok(method) => Ok(method),
        Err(ResolveFault::Memory) => Err(Halt::Memory),
        Err(_) => Err(UNLINKED),
    }
}

// Want of memory, or the stop of what stands against a name.
fn unlinked(fault: LinkFault) -> Halt
    ensures { IsUnlinked result fault }
{
    match fault {
        LinkFault::Memory => Halt::Memory,
        LinkFault::Against(construct) => Halt::Fails(Failure::Stops(stop_of(construct))),
    }
}

// What a call means by a member reference.
pub(crate) fn link(
    alloc: Global,
    world: &World,
    kind: Call,
    pool: &Pool,
    index: u16,
) -> Result<Meant, Halt>
    ensures there { IfOk result (λ m. HasMethod world.now m.method) }
    ensures exact { IsLinked result (meant_by world.now kind (member_at pool.now index)) }
{
    match meant_by(alloc, world, kind, pool, index) {
        Ok(meant) => Ok(meant),
        Err(fault) => Err(unlinked(fault)),
    }
}

// The method that a call in the current class looks up.
pub(crate) fn look_up(
    alloc: Global,
    world: &World,
    current: u32,
    kind: Call,
    meant: Meant,
) -> Result<MemberId, Halt>
    requires { HasMethod world.now meant.method }
    ensures { IsLinked result (looked_up world.now current kind meant) }
{
    match looked_up(alloc, world, current, kind, meant) {
        Ok(method) => Ok(method),
        Err(fault) => Err(unlinked(fault)),
    }
}
