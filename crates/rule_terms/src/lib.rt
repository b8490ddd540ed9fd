//! Rule terms: what a rule of a cost relation does, item by item, as a tree, and its passes.
#![tactic(auto)]

mod algebra;
mod folding;
mod item;
mod listing;
mod rule;
mod stack;

pub use algebra::RuleAlgebra;
pub use folding::fold;
pub use item::{Item, RulePath};
pub use listing::paths;
pub use rule::Rule;
pub use stack::Stack;
