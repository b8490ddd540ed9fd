//! The outside that may fail: where files come from, and where the report goes.
#![tactic(auto)]

mod file_shelf;
mod memory_shelf;
mod memory_sink;
mod out_sink;
mod shelf;
mod sink;

pub use file_shelf::FileShelf;
pub use memory_shelf::MemoryShelf;
pub use memory_sink::MemorySink;
pub use out_sink::OutSink;
pub use shelf::{Blame, Fetch, Shelf};
pub use sink::{Put, Sink};
