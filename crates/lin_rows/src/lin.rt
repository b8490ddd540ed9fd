ghost use Rattle.std.specs.Prelude.{◌≡◌, ◌==◌, ◌<◌, ◌^◌, length, IfOk};
ghost use Rattle.lin_rows.specs.Linear.{Linear, coefficient_of};

use std::alloc::{AllocError, Global};
use std::marker::Model;

/// A linear expression: a coefficient for each variable from 0, and a constant.
#[derive(Debug, Drop)]
pub struct Lin {
    list: Vec<i128>,
    constant: i128,
}

impl Model for Lin {
    ghost use Rattle.std.specs.Prelude.{◌<◌, ◌^◌, length};
    ghost use Rattle.lin_rows.specs.Linear.{Linear};

    ghost Value = { Linear };

    ghost view = { λ l. record { coefficients = l.list.items; constant = l.constant } };

    ghost invariant = { λ l. length l.list.items < 2 ^ 32 };
}

impl Lin {
    /// The expression with these coefficients, variable by variable.
    pub fn new(alloc: Global, coefficients: &[i128], constant: i128) -> Result<Lin, AllocError>
        requires { length coefficients.now < 2 ^ 32 }
        ensures { IfOk result (λ l. l ≡ record { coefficients = coefficients.now; constant = constant }) }
    {
        Ok(Lin {
            list: Vec::from_slice(alloc, coefficients)?,
            constant,
        })
    }

    /// The coefficient of a variable, 0 past the list.
    pub fn get(&self, v: u32) -> i128
        ensures { result ≡ coefficient_of self.now v }
    {
        let v = v as usize;
        if v < self.list.len() { self.list[v] } else { 0 }
    }

    /// The constant.
    pub fn constant(&self) -> i128
        ensures { result ≡ self.now.constant }
    {
        self.constant
    }

    /// How many coefficients the list has.
    pub fn len(&self) -> u32
        ensures { result ≡ length self.now.coefficients }
    {
        self.list.len() as u32
    }

    /// Whether the list has no coefficient.
    pub fn is_empty(&self) -> bool
        ensures { result ≡ (length self.now.coefficients == 0) }
    {
        self.list.is_empty()
    }

    /// The coefficients by variable.
    pub fn coefficients(&self) -> &[i128]
        ensures { result.now ≡ self.now.coefficients }
    {
        self.list.as_slice()
    }
}

impl Clone for Lin {
    ghost is_clone = { λ l c. c ≡ l };

    fn clone(&self) -> Result<Self, AllocError> {
        Ok(Lin {
            list: self.list.clone()?,
            constant: self.constant,
        })
    }
}
