//! Runs of a program's method: each frame stands at an instruction of a listed method.
#![tactic(auto)]

mod laws;

pub use laws::{program_runs_stand, programs_are_closed};
