//! Rows: linear expressions that are asked to be at least 0, and exact sums of them.
#![tactic(auto)]

mod comb;
mod fault;
pub mod laws;
mod lin;
mod mults;
mod point;
mod row;
mod sequence;
mod sums;
mod term;

pub use comb::Comb;
pub use fault::CombFault;
pub use lin::Lin;
pub use mults::Mults;
pub use point::{Point, holds};
pub use row::{Row, Transition};
pub use sequence::Sequence;
pub use sums::{combine, longest, reaches};
