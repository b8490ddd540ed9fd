ghost use Rattle.std.specs.Prelude.{◌≡◌};

use crate::lin::Lin;
use crate::sequence::Sequence;
use std::alloc::AllocError;

/// An expression that is asked to be at least 0.
#[derive(Debug, Drop)]
pub struct Row {
    pub lin: Lin,
}

impl Clone for Row {
    ghost is_clone = { λ r c. c ≡ r };

    fn clone(&self) -> Result<Self, AllocError> {
        Ok(Row {
            lin: self.lin.clone()?,
        })
    }
}

/// The rows of a step, and each next value as an expression.
#[derive(Debug, Drop)]
pub struct Transition {
    pub rows: Sequence<Row>,
    pub next: Sequence<Lin>,
}
