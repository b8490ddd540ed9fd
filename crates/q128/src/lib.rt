//! Exact fractions: a numerator and a positive denominator of 128 bits, in lowest terms.
//!
//! Each operation gives the exact value, or says which numbers were too wide for it. Nothing allocates.
#![tactic(auto)]

mod gcd;
pub mod laws;
mod narrow;
mod parts;
mod q;
mod wide;

pub use gcd::greatest_common_divisor;
pub use q::{Q, QOp, TooWide};
