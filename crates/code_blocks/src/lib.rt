//! One method's code: its instructions, what comes next, and its blocks.
#![tactic(auto)]

mod following;
mod instruction;
mod laws;
mod marks;
mod parts;
mod placing;
mod reaching;

pub use following::{has_bad_target, instructions, is_end, rising, successors};
pub use instruction::{Block, Instruction, Placed, Placement};
pub use laws::{
    blocks_have_reached, blocks_lead_to_blocks, code_is_laid_out, successors_are_a_set,
};
pub use marks::Places;
pub use parts::{are_within, blocks};
pub use placing::placed;
