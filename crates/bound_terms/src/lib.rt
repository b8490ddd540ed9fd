//! Bounds: natural numbers made of sizes, their values at sizes, their texts, and how values grow.
#![tactic(auto)]

mod base;
mod bound;
pub mod laws;
mod nat;
mod power;
mod quotient;
mod texts;
mod values;

pub use base::Base;
pub use bound::Bound;
pub use nat::Nat;
pub use texts::put_text;
pub use values::{TooBig, value};
