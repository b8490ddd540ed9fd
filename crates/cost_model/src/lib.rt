//! What instructions cost.
#![tactic(auto)]

mod cost_function;
mod model;

pub use cost_function::{CostFunction, EachOne};
pub use model::CostModel;
