//! What holds of each world.

ghost use Rattle.std.specs.Prelude.{◌↔◌, ℕ, List, IsTrue};
ghost use Rattle.world.specs.Instances.{IsInstanceOf, is_instance};

use crate::world::World;

/// A law: an object is an instance exactly of what chains of names lead to, arrays element by element. Does nothing.
pub fn instances_are_chains(world: &World)
    ensures { (a b : List ℕ) → (IsTrue (is_instance world.now a b) ↔ IsInstanceOf world.now a b) }
{
    world.well_built();
}
