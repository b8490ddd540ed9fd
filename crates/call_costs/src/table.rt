ghost use Rattle.std.specs.Prelude.{◌≡◌, slice_get};

use std::marker::Model;

/// The costs of a program's methods, in their order. Contracts see the list.
#[derive(Drop)]
pub struct Costs {
    pub(crate) costs: Vec<u128>,
}

impl Model for Costs {
    ghost use Rattle.std.specs.Prelude.{List, ℕ};

    ghost Value = { List ℕ };

    ghost view = { λ c. c.costs.items };
}

impl Costs {
    /// The costs, in the order of the methods.
    pub fn as_slice(&self) -> &[u128]
        ensures { result.now ≡ self.now }
    {
        self.costs.as_slice()
    }

    /// The cost of the method with the number.
    pub fn of(&self, number: u32) -> Option<u128>
        ensures { result ≡ slice_get self.now number }
    {
        self.costs.get(number as usize).copied()
    }
}
