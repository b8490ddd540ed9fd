ghost use Rattle.std.specs.Prelude.{◌≡◌, ◌≤◌};

use lin_rows::Lin;
use std::alloc::AllocError;
use std::marker::Model;

/// An expression over sizes, cut off below 0, and divided by a number that is at least 1.
#[derive(Debug, Drop)]
pub struct Nat {
    l: Lin,
    d: u128,
}

impl Model for Nat {
    ghost use Rattle.std.specs.Prelude.{◌≤◌};
    ghost use Rattle.bound_terms.specs.Terms.{Floored};

    ghost Value = { Floored };

    ghost view = { λ n. record { expression = n.l; divisor = n.d } };

    ghost invariant = { λ n. 1 ≤ n.d };
}

impl Nat {
    /// The expression divided by the number.
    pub fn new(l: Lin, d: u128) -> Nat
        requires { 1 ≤ d }
        ensures { result ≡ record { expression = l; divisor = d } }
    {
        Nat { l, d }
    }

    /// The expression.
    pub fn expression(&self) -> &Lin
        ensures { result.now ≡ self.now.expression }
    {
        &self.l
    }

    /// The divisor.
    pub fn divisor(&self) -> u128
        ensures value { result ≡ self.now.divisor }
        ensures positive { 1 ≤ result }
    {
        self.d
    }
}
