//! Base relations: cost relations whose rules call covers alone.
#![tactic(auto)]

mod direct;
mod fault;
mod lins;
mod making;
mod numbers;
mod part;
mod plan;
mod rules;
mod tracing;
mod unfolding;

pub use direct::Direct;
pub use fault::UnfoldFault;
pub use unfolding::unfold;
