//! What normal forms of bounds are: the laws of the forms that bounds have, where nothing runs and each contract is the law, and
//! `normal`, which has the value that the laws promise.
#![tactic(auto)]

pub mod laws;
mod normalizing;

pub use normalizing::normal;
