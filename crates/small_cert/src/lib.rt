//! Small certificates: rows that small sums of other rows prove.
#![tactic(auto)]

mod entails;
pub mod laws;
mod least;
mod multiple;
mod share;

pub use entails::{entailed, is_small, small_entails};
pub use least::{Least, least_constant};
pub use multiple::Multiple;
pub use share::push_share;
