ghost use Rattle.std.specs.Prelude.{◌≡◌, ◌<◌, ◌^◌, Some, length, slice_get};
ghost use Rattle.null_facts.specs.Facts.{place_in};

use fix_engine::Solution;
use null_flow::NullFact;
use std::marker::Model;

/// What is known of null in the frames of a program's methods before each instruction. A method goes by its number in the
/// program. Nothing comes to a place at which no instruction begins.
#[derive(Drop)]
pub struct NullFacts {
    facts: Solution<NullFact>,
    firsts: Vec<u32>,
}

impl Model for NullFacts {
    ghost use Rattle.std.specs.Prelude.{◌<◌, ◌^◌, length};
    ghost use Rattle.null_facts.specs.Facts.{Found};

    ghost Value = { Found };

    ghost view = { λ found. record { facts = found.facts; firsts = found.firsts.items } };

    ghost invariant = { λ found. length found.facts < 2 ^ 32 };
}

impl NullFacts {
    /// The facts, by the number of each method's first place.
    pub(crate) fn of(facts: Solution<NullFact>, firsts: Vec<u32>) -> Self
        requires { length facts < 2 ^ 32 }
        ensures facts { result.facts ≡ facts }
        ensures firsts { result.firsts ≡ firsts.items }
    {
        NullFacts { facts, firsts }
    }

    /// What is known before the instruction at this place of the method.
    pub fn before(&self, method: u32, pc: u32) -> &NullFact
        requires method { method < length self.now.firsts }
        requires place { place_in self.now method pc < length self.now.facts }
        ensures { slice_get self.now.facts (place_in self.now method pc) ≡ Some result.now }
    {
        self.facts.at(self.firsts[method as usize] + pc)
    }
}
