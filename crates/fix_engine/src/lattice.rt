ghost use Rattle.std.specs.Prelude.{◌≡◌, ◌≢◌, OnOk, OnErr, IfOk, MatchBool};

use std::alloc::AllocError;

/// Facts that are ordered, and of which two have a join. Which facts keep the laws of an order is
/// said by the flow that they are facts of.
pub trait Lattice {
    ghost use Rattle.fix_engine.specs.Order.{Order};

    ghost order: { Order Self };

    /// Whether this fact lies below the other, or is the other.
    fn leq(&self, other: &Self) -> bool
        requires { order.Alike self.now other.now }
        ensures { result ≡ order.leq self.now other.now };

    /// Makes this fact the join of both, and answers whether that changed it. `Err` is want of
    /// memory, and leaves the fact as it was.
    fn join(&mut self, other: &Self) -> Result<bool, AllocError>
        requires { order.Alike self.old other.now }
        ensures joined { OnOk result (self.new ≡ order.join self.old other.now) }
        ensures changed { IfOk result (λ changed. MatchBool changed (self.new ≢ self.old) (self.new ≡ self.old)) }
        ensures kept { OnErr result (self.new ≡ self.old) };
}
