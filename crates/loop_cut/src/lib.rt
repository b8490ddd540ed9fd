//! The loops of a method's code: what they hold, where they are left, and what runs in them may change.
#![tactic(auto)]

mod bodies;
mod cutting;
mod effects;
mod found;
mod graphs;
mod heads;
mod laws;
mod leaving;
mod point;

pub use cutting::cut;
pub use effects::stored_by;
pub use found::{CodeLoop, CutFault, Loops};
pub use laws::{
    blocks_are_reached, loops_are_entered_at_entries, loops_are_left_to_exits, walks_repeat_nothing,
};
pub use point::Point;
