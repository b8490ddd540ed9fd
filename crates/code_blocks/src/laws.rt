ghost use Rattle.code_blocks.specs.Laws.{BlocksAreApart, BlocksHaveReached, BlocksLeadToBlocks, CodeIsLaidOut, PlacedStand, SuccessorsAreASet};

use op_table::instrs_fit;

/// A law of code: its instructions are what stands at their places, one behind another, and successors are
/// instructions, where no jump leads elsewhere and the code doesn't go on behind its end.
pub fn code_is_laid_out()
    ensures stands { PlacedStand }
    ensures laid_out { CodeIsLaidOut }
{
    instrs_fit();
}

/// A law of successors: they rise, and are the place behind the instruction and those that it jumps to. Does nothing.
pub fn successors_are_a_set()
    ensures { SuccessorsAreASet }
{}

/// A law of blocks: what follows a block is where a block begins. Does nothing.
pub fn blocks_lead_to_blocks()
    ensures { BlocksLeadToBlocks }
{}

/// A law of blocks: the instructions that successors lead to are those that stand in blocks, and none stands in two.
/// Does nothing.
pub fn blocks_have_reached()
    ensures reached { BlocksHaveReached }
    ensures apart { BlocksAreApart }
{}
