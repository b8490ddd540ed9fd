//! The callee-first order of a graph's components.
#![tactic(auto)]

mod calling;
mod laws;
mod line;
mod parts;
mod ready;

pub use calling::callees_first;
pub use laws::{callee_first_order_is_one, callees_stand_before};
