//! Cost relations: nodes, their rules, and how the ways through the rules end.
#![tactic(auto)]

mod direct;
mod ending;
mod fault;
mod name;
mod node;
mod relation;
mod results;
mod walk;

pub use direct::{Called, DirectNode};
pub use ending::{CallPart, End, Ends, PathEnd};
pub use fault::RelFault;
pub use name::NodeName;
pub use node::Node;
pub use relation::Relations;
pub use results::{NoResults, Results};
