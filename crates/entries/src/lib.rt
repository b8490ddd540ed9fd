//! Entries: the configurations with which runs of a method begin, and the first argument with which it can't be entered
//! (JVMS 2.6).
#![tactic(auto)]

mod cells;
mod entering;
mod laws;
mod statics;
mod survey;
mod types;

pub use entering::{EnterFault, enter};
pub use laws::good_arguments_are_handed;
