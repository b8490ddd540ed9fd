//! Path lengths of references: how many objects the longest chain has that begins at one.
#![tactic(auto)]

mod measuring;
mod walk;

pub use measuring::length;
