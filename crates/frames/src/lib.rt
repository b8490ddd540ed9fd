//! What an instruction sees and what comes of it: values, locals, operand stacks, frames, the heap, the instruction
//! that comes next, and the ways in which it goes on or fails (JVMS 2.5, 2.6).
#![tactic(auto)]

mod defaults;
mod failure;
mod frame;
mod heap;
mod here;
mod laws;
mod locals;
mod slots;
mod stack;
mod standing;
mod statics;
mod tops;
mod types;
mod value;
mod words;

pub use defaults::{default_of, is_object_field};
pub use failure::{Failure, Going, Raised, Stop, stop_of};
pub use frame::Frame;
pub use heap::{Cell, Heap};
pub use here::Here;
pub use laws::numbers_are_kept;
pub use locals::Locals;
pub use slots::Slots;
pub use stack::Stack;
pub use standing::Fetched;
pub use statics::Statics;
pub use tops::{int_in, long_and_int, one_int, one_long, two_ints, two_longs, value_on, words_of};
pub use types::{is_int_type, is_of_type, is_reference_type};
pub use value::Value;
pub use words::{has_space, is_reference, put, width_of};
