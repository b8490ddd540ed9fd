//! The texts of bounds, written and read.
#![tactic(auto)]

mod digits;
mod drawing;
mod fault;
mod printing;
mod reader;
mod reading;
mod sum;

pub use fault::ReadFault;
pub use printing::print;
pub use reading::read;
