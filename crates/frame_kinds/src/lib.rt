//! The kinds of a method's frames at each place of its code, or where they disagree.
#![tactic(auto)]

mod disagreeing;
mod edge;
mod fault;
mod flow;
mod known;
mod laws;
mod solving;

pub use edge::Edge;
pub use fault::KindFault;
pub use flow::KindFlow;
pub use known::Kinds;
pub use laws::{frames_lie_below, heights_are_seen, mixed_come_apart, same_facts_are_one};
pub use solving::kinds;
