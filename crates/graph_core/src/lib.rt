//! Directed graphs: paths, loops and components.
#![tactic(auto)]

mod body;
mod gathering;
mod graph;
mod laws;
mod listed;
pub mod loops;
mod nesting;
mod numbering;
mod round;
mod row;
mod tree;
mod walk;

pub use gathering::components;
pub use graph::Graph;
pub use laws::first_path_is_one;
pub use nesting::nest;
pub use numbering::Components;
pub use tree::FirstPaths;
pub use walk::first_paths;
