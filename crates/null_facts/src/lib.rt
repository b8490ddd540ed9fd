//! Which slots of frames hold no null at each place of the code of several methods that call each other.
#![tactic(auto)]

mod building;
mod known;
mod method;
mod solving;

pub use known::NullFacts;
pub use method::NullMethod;
pub use solving::solve;
