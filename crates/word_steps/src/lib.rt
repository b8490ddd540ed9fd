//! Instructions that change a frame alone: constants, loads and stores, moves on the operand stack, arithmetic, and
//! jumps (JVMS 6.5).
#![tactic(auto)]

mod branches;
mod change;
mod computing;
mod going;
mod ints;
mod laws;
mod longs;
mod moves;
mod narrowing;

pub use branches::jump;
pub use going::go_on;
pub use laws::{jumps_are_cases, words_are_computed};
pub use narrowing::{left_in, narrowed_to};
