//! The instructions of the Java Virtual Machine: what stands in code, and what each does.
#![tactic(auto)]

mod acting;
pub mod acts;
mod args;
mod bytes;
mod cases;
mod construct;
mod decoding;
mod instr;
mod laws;
mod layout;
mod names;
mod op;
mod operands;
mod profile;
mod switches;

pub use acting::action_of;
pub use cases::case;
pub use construct::{Construct, Support};
pub use decoding::decode;
pub use instr::{Args, Instr, OpFault};
pub use laws::{cases_rise, instrs_are_determined, instrs_fit, only_outside_is_outside};
pub use op::Op;
pub use profile::support;
