ghost use Rattle.std.specs.Prelude.{◌≡◌, ◌≤◌};

use std::marker::Model;

/// What is raised to a power: a number that is at least 1.
#[derive(Debug, Drop)]
pub struct Base {
    b: u128,
}

impl Model for Base {
    ghost use Rattle.std.specs.Prelude.{ℕ, ◌≤◌};

    ghost Value = { ℕ };

    ghost view = { λ s. s.b };

    ghost invariant = { λ s. 1 ≤ s.b };
}

impl Base {
    /// The number as a base.
    pub fn new(b: u128) -> Base
        requires { 1 ≤ b }
        ensures { result ≡ b }
    {
        Base { b }
    }

    /// The number.
    pub fn get(&self) -> u128
        ensures value { result ≡ self.now }
        ensures positive { 1 ≤ result }
    {
        self.b
    }
}
