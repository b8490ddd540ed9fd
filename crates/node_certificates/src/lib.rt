//! Small certificates of the nodes of base relations: rankings of their self calls, and caps at their calls.
#![tactic(auto)]

mod caps;
mod nodes;
mod ranking;
mod steps;
mod visits;

pub use caps::{cap, cap_at};
pub use nodes::has_steps;
pub use ranking::rank;
pub use steps::self_steps;
