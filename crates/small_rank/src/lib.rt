//! Small rankings: the first function of at most two sizes that falls with each step, by small certificates.
#![tactic(auto)]

mod functions;
mod ranking;

pub use ranking::{SmallRank, StepProof, small_rank};
