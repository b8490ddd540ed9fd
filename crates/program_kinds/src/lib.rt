//! The kinds of a program's methods at each moment of its runs: the words of each activation are as the kinds at its place say.
#![tactic(auto)]

mod laws;

pub use laws::{kinds_are_kept, moments_are_as_kinds, runs_are_as_kinds};
