//! The moments of runs as nests of loop turns: where frames stand among the loops of their methods' code, and the laws. Nothing
//! runs here.
#![tactic(auto)]

mod laws;

pub use laws::{loop_turns_keep_locals, loop_turns_stay, moments_are_turns};
