//! What methods cost whose code doesn't jump.
#![tactic(auto)]

mod callees;
mod fault;
mod laws;
mod pricing;
mod table;

pub use callees::costs;
pub use fault::CostFault;
pub use laws::{costs_bound_runs, runs_stand};
pub use table::Costs;
