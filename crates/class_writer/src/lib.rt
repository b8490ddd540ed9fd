//! Class files, written as the grammar that they are read by.
#![tactic(auto)]

mod code;
mod counts;
mod entries;
mod fault;
mod indices;
mod laws;
mod members;
mod output;
mod writer;

pub use fault::{What, WriteFault};
pub use laws::{over_is_none, written_is_class_file};
pub use writer::write;
