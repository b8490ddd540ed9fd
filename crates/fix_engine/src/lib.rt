//! The least solution of a data flow problem: of any flow that keeps its laws.
#![tactic(auto)]

mod agenda;
mod flow;
mod lattice;
mod laws;
mod readers;
mod search;
mod solution;

pub use flow::Flow;
pub use lattice::Lattice;
pub use laws::{least_is_gathered, least_is_one};
pub use search::solve;
pub use solution::Solution;
