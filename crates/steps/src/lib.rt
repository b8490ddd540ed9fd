//! Steps of the Java virtual machine: configurations, calls and returns, and what one step makes of each (JVMS 2.11, 6.5).
#![tactic(auto)]

mod calling;
mod configuration;
mod halt;
mod handing;
mod laws;
mod links;
mod returning;
mod stepping;

pub use configuration::{Event, State, Status, Thrown};
pub use laws::{at_most_one_step, outcomes_are_rows};
