//! The Java virtual machine with calls: its configurations, entries and steps, and its runs with their moments.
#![tactic(auto)]

mod laws;

pub use entries::{EnterFault, enter, good_arguments_are_handed};
pub use frames::{Cell, Frame, Heap, Here, Locals, Stack, Statics, Stop, Value};
pub use laws::moments_are_nests;
pub use steps::{Event, State, Status, Thrown, at_most_one_step, outcomes_are_rows};
