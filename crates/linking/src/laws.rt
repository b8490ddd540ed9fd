//! What holds of links.

ghost use Rattle.std.specs.Prelude.{◌≡◌, ◌↔◌, ℕ, List, Ok, Err};
ghost use Rattle.world.specs.declared.fault.ResolveFault.{ResolveFault};
ghost use Rattle.world.specs.Tables.{HasMethod};
ghost use Rattle.world.specs.Targets.{AreTargets, IsFirstFault};
ghost use Rattle.linking.specs.TargetList.{targets_of};

use world::{MemberId, World};

/// A law: the list of what receivers' classes select is the one list of the targets of a call of the method through
/// the class, and the fault that it has in its place is the first that a receiver's class meets. Does nothing.
pub fn targets_are_listed(world: &World, method: MemberId)
    requires { HasMethod world.now method }
    ensures targets { (c : ℕ) (ts : List MemberId) → (targets_of world.now c method ≡ Ok ts ↔ AreTargets world.now c method ts) }
    ensures fault { (c : ℕ) (fault : ResolveFault) → (targets_of world.now c method ≡ Err fault ↔ IsFirstFault world.now c method fault) }
{
    world.well_built();
}
