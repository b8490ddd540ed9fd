//! What may be reached from the places of a frame.

ghost use Rattle.std.specs.Prelude.{◌≡◌};

use crate::place::Place;

/// Which places may share before an instruction, and which may reach a cycle. A method goes by its number in the program.
pub trait ShapeAt {
    ghost use Rattle.slot_facts.specs.Shapes.{Shapes};

    ghost shapes: { Self → Shapes };

    /// Whether references may lead from both places to one object or array.
    fn pair(&self, method: u32, pc: u32, a: Place, b: Place) -> bool
        requires first { (shapes self.now).IsPlace method pc a }
        requires second { (shapes self.now).IsPlace method pc b }
        ensures { result ≡ (shapes self.now).pair method pc a b };

    /// Whether references may lead from the place into a cycle.
    fn cyclic(&self, method: u32, pc: u32, a: Place) -> bool
        requires { (shapes self.now).IsPlace method pc a }
        ensures { result ≡ (shapes self.now).cyclic method pc a };
}

/// Where nothing is known: any two places may share, and each may reach a cycle.
#[derive(Clone, Copy)]
pub struct AnyShape;

impl ShapeAt for AnyShape {
    ghost use Rattle.slot_facts.specs.Shapes.{any_shape};

    ghost shapes = { λ _. any_shape };

    fn pair(&self, _method: u32, _pc: u32, _a: Place, _b: Place) -> bool {
        true
    }

    fn cyclic(&self, _method: u32, _pc: u32, _a: Place) -> bool {
        true
    }
}
