//! Instructions with their successors, and blocks (JVMS 6.5). A case is code. Shown are the instructions, each with the
//! places of those that can come next, where none stands, and the blocks that are reached: where each begins, its first and
//! last instruction by their numbers, and where those begin that can come next. Where a successor lies behind the code there
//! are no blocks to show.

use crate::instructions::code_of;
use case_texts::Case;
use code_blocks::{Block, Instruction, are_within, blocks, instructions, placed};
use std::alloc::AllocError;

fn put_places(case: &mut Case<'_>, places: &[u32]) {
    case.put(" to");
    match places {
        [] => case.put(" none"),
        [..] => {
            for place in places {
                case.put(" ");
                case.show(place);
            }
        }
    }
}

fn put_instructions(case: &mut Case<'_>, instructions: &[Instruction]) {
    for i in instructions {
        case.part("; ");
        case.show(&i.pc);
        put_places(case, i.successors.as_slice());
    }
}

fn put_block(case: &mut Case<'_>, block: &Block) {
    case.part("; ");
    case.put("block ");
    case.show(&block.pc);
    case.put(" of ");
    case.show(&block.first);
    case.put(" to ");
    case.show(&block.last);
    put_places(case, block.successors.as_slice());
}

/// Shows the blocks, where the instructions and their successors stand in the code.
fn put_blocks(
    case: &mut Case<'_>,
    size: usize,
    instructions: &[Instruction],
) -> Result<(), AllocError> {
    if size == 0 || size > 65535 || instructions.len() > 65535 {
        return Ok(());
    }
    if are_within(size as u32, instructions) {
        let blocks = blocks(case.alloc(), size as u32, instructions)?;
        for block in blocks.as_slice() {
            put_block(case, block);
        }
    } else {
        case.part("; ");
        case.put("no blocks");
    }
    Ok(())
}

fn tell(case: &mut Case<'_>, code: &[u8]) -> Result<(), AllocError> {
    if code.len() > 65535 {
        return Ok(());
    }
    let found = instructions(case.alloc(), code)?;
    put_instructions(case, found.as_slice());
    if let Some(pc) = placed(case.alloc(), code)?.broken {
        case.part("; ");
        case.put("broken ");
        case.show(&pc);
    }
    put_blocks(case, code.len(), found.as_slice())
}

pub fn answer(case: &mut Case<'_>) {
    let code = code_of(case);
    let told = tell(case, code.as_slice());
    case.keep(told);
}
