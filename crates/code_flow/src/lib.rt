//! The code that a method reaches by calls, or the first thing in it that isn't analysed.
#![tactic(auto)]

mod calling;
mod checking;
mod fault;
mod flowing;
mod found;
mod judging;
mod laws;
mod listing;
mod ordering;
mod planning;
mod program;
mod scanning;

pub use fault::FlowFault;
pub use flowing::flow;
pub use laws::{faults_are_first, flows_are_programs, listed_are_reached};
pub use program::{Program, Reached};
