//! The exact solver's table of fractions, and its pivot.
#![tactic(auto)]

mod line;
mod table;

pub use table::Table;
