//! Where the frames of runs stand: at instructions to which successors lead from the beginning of their method's code.
#![tactic(auto)]

mod laws;

pub use laws::{outcomes_lead_to_successors, runs_stand, steps_stand};
