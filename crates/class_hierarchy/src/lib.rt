//! Classes by number and by name, what stands above each of them, and whether they form a world.
#![tactic(auto)]

mod above;
mod build;
mod built_in;
mod classes;
mod cycle;
mod fault;
mod hierarchy;
mod laws;
mod naming;
mod rank;
mod table;

pub use fault::WorldFault;
pub use hierarchy::Hierarchy;
pub use laws::{
    instances_are_chains, interfaces_are_whole, lines_are_whole, names_are_own,
    superclasses_are_there,
};
