//! Which slots of frames hold no null, as a flow over edges between places.
#![tactic(auto)]

mod edge;
mod effects;
mod fact;
mod flags;
mod flow;
mod origins;

pub use edge::{NullEdge, Way};
pub use effects::fact_along;
pub use fact::NullFact;
pub use flags::Flags;
pub use flow::NullFlow;
pub use origins::{Origin, Stored, pushes, stores};
