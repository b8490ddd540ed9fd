//! What analyses know of a frame's slots.
#![tactic(auto)]

mod facts;
mod kind;
mod place;
mod shapes;

pub use facts::SlotFacts;
pub use kind::Kind;
pub use place::Place;
pub use shapes::{AnyShape, ShapeAt};
