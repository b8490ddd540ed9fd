//! What is held stays well formed: each reference leads to what is held, and each number lies in the range of its kind, in
//! each configuration of each run.
#![tactic(auto)]

mod laws;

pub use laws::{
    entries_are_well_formed, instructions_keep, runs_are_well_formed, steps_keep,
    worlds_are_of_files,
};
