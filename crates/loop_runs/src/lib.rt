//! What the frames of runs keep in the loops of their code.
#![tactic(auto)]

mod laws;

pub use laws::{calls_keep_locals, loops_keep_locals, outcomes_keep_locals};
