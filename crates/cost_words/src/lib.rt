//! The words of the command line: what they ask for, or the first that is wrong.
#![tactic(auto)]

mod command;
mod commands;
mod fault;
mod number;
mod options;
mod paths;
mod rest;
mod target;
mod word;

pub use command::{Command, Cost, PathWord};
pub use commands::read;
pub use fault::{WordFault, WordKind};
pub use word::Word;
