//! What names of members mean in the classes that a program can meet, and which methods its calls run.
#![tactic(auto)]

mod access;
mod declared;
mod fault;
mod instance;
mod laws;
mod member;
mod members;
mod resolve;
mod select;
mod standing;
mod targets;
mod world;

pub use fault::ResolveFault;
pub use laws::instances_are_chains;
pub use member::MemberId;
pub use world::World;
