//! Small caps: the first expression over entry sizes that is at least another wherever rows hold, by sums of at most three rows.
#![tactic(auto)]

mod candidate;
mod cap;
mod entries;
mod order;
mod pick;
mod search;

pub use cap::{SmallCap, small_cap};
