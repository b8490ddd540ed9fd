//! What stands where a class file's fault is told.
#![tactic(auto)]

mod laws;

pub use laws::{faults_stand, faulty_bytes_are_no_class};
