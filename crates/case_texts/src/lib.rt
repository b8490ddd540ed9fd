//! What cases are written in: their words and answers, bytes in text, and an assembler of class files.
#![tactic(auto)]

pub mod assembler;
mod case;
pub mod texts;

pub use case::Case;
