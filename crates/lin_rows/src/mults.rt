ghost use Rattle.std.specs.Prelude.{◌≡◌, [], ◌∷◌, ◌++◌, ◌↔◌, IsTrue, OnOk, OnErr};
ghost use Rattle.lin_rows.specs.Proving.{AreRowNumbers};

use q128::Q;
use std::alloc::{AllocError, Global};
use std::marker::Model;

/// Multipliers: row numbers, counted from 1, each with a factor.
#[derive(Debug, Drop)]
pub struct Mults {
    items: Vec<(u32, Q)>,
}

impl Model for Mults {
    ghost use Rattle.lin_rows.specs.Proving.{Multipliers};

    ghost Value = { Multipliers };

    ghost view = { λ m. m.items.items };
}

impl Mults {
    /// No multiplier. Takes no memory.
    pub fn new(alloc: Global) -> Mults
        ensures { result ≡ [] }
    {
        Mults {
            items: Vec::new(alloc),
        }
    }

    /// Adds a factor of a row at the end. An `Err` changes nothing.
    pub fn push(&mut self, row: u32, factor: Q) -> Result<(), AllocError>
        ensures ok { OnOk result (self.new ≡ self.old ++ (row, factor) ∷ []) }
        ensures err { OnErr result (self.new ≡ self.old) }
    {
        self.items.push((row, factor))?;
        Ok(())
    }

    /// Whether each number is one of so many rows.
    pub fn are_rows_of(&self, count: usize) -> bool
        ensures { IsTrue result ↔ AreRowNumbers count self.now }
    {
        self.items.iter().all(|p| 0 < p.0 && p.0 as usize <= count)
    }

    /// The row numbers and factors in order.
    pub fn as_slice(&self) -> &[(u32, Q)]
        ensures { result.now ≡ self.now }
    {
        self.items.as_slice()
    }
}

impl Clone for Mults {
    ghost is_clone = { λ m c. c ≡ m };

    fn clone(&self) -> Result<Self, AllocError> {
        Ok(Mults {
            items: self.items.clone()?,
        })
    }
}
