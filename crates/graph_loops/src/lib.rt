//! How the loops of a graph lie in one another and around its nodes.
#![tactic(auto)]

mod ahead;
mod around;
mod laws;
mod looping;
mod nested;

pub use laws::{cycles_lie_in_loops, loops_are_reached, loops_lie_apart_or_within};
pub use looping::loops;
pub use nested::NestedLoops;
