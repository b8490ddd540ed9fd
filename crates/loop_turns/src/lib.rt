//! Activations as stacks of turns, one for the method and one for each loop around the place where it stands: the
//! definitions in `specs`, and the laws, whose lemmas in `proofs` are over any machine of activations.
#![tactic(auto)]

mod laws;

pub use laws::{calls_are_turns, history_is_kept, nests_are_turns};
