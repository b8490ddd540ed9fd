//! Instructions on arrays, fields and references, by their action.

ghost use Rattle.std.specs.Prelude.{◌≡◌, ◌<◌, ◌^◌, length, OnErr, IfOk};
ghost use Rattle.frames.specs.Outcome.{HasGone};
ghost use Rattle.frames.specs.Standing.{IsFetched};
ghost use Rattle.object_steps.specs.After.{does};
ghost use Rattle.object_steps.specs.Arrays.{array_after};
ghost use Rattle.object_steps.specs.Fields.{field_after};
ghost use Rattle.object_steps.specs.Casts.{cast_after};

use crate::arrays::{array_length, load, store};
use crate::casts::{cast_to, test_of};
use crate::fields::{get, put};
use crate::new_arrays::{make_array, make_references};
use crate::statics::{get_static, put_static};
use frames::{Failure, Fetched, Going, Here, Stop};
use op_table::acts::Action;
use std::alloc::{AllocError, Global};
use world::World;

const UNSUPPORTED: Going = Going::Fails(Failure::Stops(Stop::Support));

/// Does an instruction on arrays. An `Err` changes nothing.
#[tactic(auto, unfolding(crate::specs::Arrays::array_after))]
pub fn on_arrays(
    alloc: Global,
    world: &World,
    fetched: &Fetched<'_>,
    action: Action,
    here: &mut Here,
) -> Result<Going, AllocError>
    requires few { length here.old.heap < 2 ^ 32 }
    requires fetched { IsFetched world.now fetched.now here.old }
    ensures gone { IfOk result (λ going. HasGone going here.old here.new (does fetched.now.standing here.old (array_after world.now fetched.now.standing here.old action))) }
    ensures err { OnErr result (here.new ≡ here.old) }
{
    match action {
        Action::LoadElement(element) => load(element, fetched, here),
        Action::StoreElement(element) => Ok(store(world, element, fetched, here)),
        Action::ArrayLength => array_length(fetched, here),
        Action::NewArray(kind) => make_array(alloc, kind, fetched, here),
        Action::NewReferenceArray(index) => make_references(alloc, world, index, fetched, here),
        _ => Ok(UNSUPPORTED),
    }
}

/// Does an instruction on fields, static ones too. An `Err` changes nothing.
#[tactic(auto, unfolding(crate::specs::Fields::field_after))]
pub fn on_fields(
    alloc: Global,
    world: &World,
    fetched: &Fetched<'_>,
    action: Action,
    here: &mut Here,
) -> Result<Going, AllocError>
    requires { IsFetched world.now fetched.now here.old }
    ensures gone { IfOk result (λ going. HasGone going here.old here.new (does fetched.now.standing here.old (field_after world.now fetched.now.standing here.old action))) }
    ensures err { OnErr result (here.new ≡ here.old) }
{
    match action {
        Action::GetField(index) => get(alloc, world, index, fetched, here),
        Action::PutField(index) => put(alloc, world, index, fetched, here),
        Action::GetStatic(index) => get_static(alloc, world, index, fetched, here),
        Action::PutStatic(index) => put_static(alloc, world, index, fetched, here),
        _ => Ok(UNSUPPORTED),
    }
}

/// Does an instruction that asks what a reference is an instance of. An `Err` changes nothing.
#[tactic(auto, unfolding(crate::specs::Casts::cast_after))]
pub fn on_references(
    world: &World,
    fetched: &Fetched<'_>,
    action: Action,
    here: &mut Here,
) -> Result<Going, AllocError>
    requires { IsFetched world.now fetched.now here.old }
    ensures gone { IfOk result (λ going. HasGone going here.old here.new (does fetched.now.standing here.old (cast_after world.now fetched.now.standing here.old action))) }
    ensures err { OnErr result (here.new ≡ here.old) }
{
    match action {
        Action::CheckCast(index) => cast_to(world, index, fetched, here),
        Action::InstanceOf(index) => test_of(world, index, fetched, here),
        _ => Ok(UNSUPPORTED),
    }
}
