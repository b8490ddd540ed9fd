//! The levels of a function on steps, by small certificates: with which constant it isn't negative before each step, and what
//! it falls by with each.
#![tactic(auto)]

mod falls;
mod levels;
mod measure;
mod steps;
mod wide;

pub use falls::fall_coefficients;
pub use levels::{Levels, levels_over};
pub use measure::{Factor, Measure, measure_of};
pub use steps::Step;
pub use wide::Wide;
