//! The classes and arrays that instructions name (JVMS 4.4.1, 5.4.3.1).

ghost use Rattle.std.specs.Prelude.{◌≡◌, MatchResult};
ghost use Rattle.class_pool.specs.Pool.{class_name_at};
ghost use Rattle.frames.specs.Heap.{cell_at, is_instance};
ghost use Rattle.object_steps.specs.Classes.{class_known, type_named};

use class_pool::{Pool, Text};
use descriptors::is_array;
use frames::{Cell, Heap};
use linking::{against_class, known};
use op_table::Construct;
use world::World;

// The name of a Class entry, or what stands against it.
pub(crate) fn class_known<'p>(
    world: &World,
    pool: &'p Pool,
    index: u16,
) -> Result<&'p Text, Construct>
    ensures { MatchResult result
        (λ name. class_known world.now (class_name_at pool.now index) ≡ Ok name.now)
        (λ construct. class_known world.now (class_name_at pool.now index) ≡ Err construct) }
{
    let Some(name) = pool.class_name(index) else {
        return Err(Construct::Constant);
    };
    if let Some(construct) = against_class(pool, index) {
        return Err(construct);
    }
    match known(world, name) {
        Some(construct) => Err(construct),
        None => Ok(name),
    }
}

// Whether the object or array with this number is an instance of the class or array of this name.
#[tactic(auto, using(crate::proofs::Names::names))]
pub(crate) fn is_named(world: &World, heap: &Heap, name: &Text, number: u32) -> bool
    ensures { result ≡ is_instance world.now (type_named name.now) (cell_at heap.now number) }
{
    match heap.get(number) {
        Some(Cell::Object { class, .. }) => {
            !is_array(name.as_slice()) && world.is_object_of(*class, name.as_slice())
        }
        Some(Cell::Array { element, .. }) => world.is_array_of(element.as_slice(), name.as_slice()),
        None => false,
    }
}
