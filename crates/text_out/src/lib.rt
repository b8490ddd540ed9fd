//! Lines of bytes: texts, numbers and names, and the names of methods.
#![tactic(auto)]

mod line;
mod names;

pub use line::Line;
