//! What is known of the kinds of a frame's slots at one point of the code, as facts with an order and a join.
#![tactic(auto)]

mod fact;
mod kinds;
mod laws;
mod slots;

pub use fact::{KindFact, KindFrame};
pub use kinds::{is_below, joined};
pub use laws::{chains_are_short, facts_are_ordered, facts_have_joins};
pub use slots::Slots;
