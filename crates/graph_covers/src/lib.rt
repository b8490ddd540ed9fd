//! Covers of a graph's components: the one node of each that all its cycles pass, and ranks along all other edges.
#![tactic(auto)]

mod avoiding;
pub mod cover;
mod covering;
mod cycles;
mod distances;
mod naming;
mod survey;

pub use covering::covers;
