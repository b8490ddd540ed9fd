ghost use Rattle.std.specs.Prelude.{◌≡◌, ◌<◌, Some, length, slice_get};

use fix_engine::Solution;
use kind_frames::KindFact;
use std::marker::Model;

/// What is known of the kinds of a method's frames before each instruction. Contracts see the list of the facts by place:
/// nothing comes to a place at which no instruction begins.
#[derive(Drop)]
pub struct Kinds {
    facts: Solution<KindFact>,
}

impl Model for Kinds {
    ghost use Rattle.std.specs.Prelude.{List};
    ghost use Rattle.kind_frames.specs.declared.fact.KindFact.{KindFact};

    ghost Value = { List KindFact };

    ghost view = { λ kinds. kinds.facts };
}

impl Kinds {
    /// The kinds that have these facts, by place.
    pub(crate) fn of(facts: Solution<KindFact>) -> Self
        ensures { result ≡ facts }
    {
        Kinds { facts }
    }

    /// What is known before the instruction at this place.
    pub fn before(&self, pc: u32) -> &KindFact
        requires { pc < length self.now }
        ensures { slice_get self.now pc ≡ Some result.now }
    {
        self.facts.at(pc)
    }
}
