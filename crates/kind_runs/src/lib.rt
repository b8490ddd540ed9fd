//! What the kinds of slots mean for runs: the words of a frame are of the kinds that are known at its place.
#![tactic(auto)]

mod laws;

pub use laws::{facts_above_hold, instructions_have_effects, kinds_stay};
