//! The code of one method, with all that is asked of it without the world beside it.
#![tactic(auto)]

mod body;

pub use body::Body;
