//! Paths, loops, covers and callee-first orders of small graphs by looking through all lists of nodes without repeat,
//! as the definitions read. Slow: to compare with.
#![tactic(auto)]

mod circling;
mod covering;
mod listing;
mod looping;
mod nesting;
mod ordering;
mod trunks;

pub use covering::covers;
pub use looping::{first_path, nest};
pub use nesting::tells_loops;
pub use ordering::is_callee_first;
