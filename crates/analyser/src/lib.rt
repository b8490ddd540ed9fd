//! What the program `costa` answers to the words of its command line: the request, the files, their classes, the
//! bound in their world, and the report. The contract of the call `costa` is the product's.
#![tactic(auto)]

mod answer;
mod classes;
mod fetching;
mod report;
mod status;
mod top;
mod words;

pub use report::exit_code;
pub use status::{FaultKind, LimitKind, Status};
pub use top::costa;
