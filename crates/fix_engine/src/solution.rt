ghost use Rattle.std.specs.Prelude.{◌≡◌, ◌<◌, Some, length, slice_get};

use std::marker::Model;

/// A fact for each point. Contracts see it as the list of the facts, by point.
#[derive(Drop)]
pub struct Solution<Fact> {
    facts: Vec<Fact>,
}

impl<Fact> Model for Solution<Fact> {
    ghost use Rattle.std.specs.Prelude.{List};
    ghost use Rattle.std.specs.Coded.{coded_list};

    ghost Value = { List Fact };

    ghost coded = { coded_list Fact.code };

    ghost view = { λ solution. solution.facts.items };
}

impl<Fact> Solution<Fact> {
    /// The solution that has these facts, by point.
    pub(crate) fn of(facts: Vec<Fact>) -> Self
        ensures { result ≡ facts.items }
    {
        Solution { facts }
    }

    /// The fact at a point.
    pub fn at(&self, point: u32) -> &Fact
        requires { point < length self.now }
        ensures { slice_get self.now point ≡ Some result.now }
    {
        &self.facts[point as usize]
    }
}
