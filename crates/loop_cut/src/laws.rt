//! Laws of the blocks of code, of loops and of regions.

ghost use Rattle.loop_cut.specs.Laws.{BlocksAreReached, LoopsAreEnteredAtEntries, LoopsAreLeftToExits, WalksRepeatNothing};

use code_blocks::code_is_laid_out;

/// A law of the blocks of code: the start reaches each of them.
pub fn blocks_are_reached()
    ensures { BlocksAreReached }
{
    code_is_laid_out();
}

/// A law of code of which each loop is entered at one block alone: an edge into a loop leads to its entry.
pub fn loops_are_entered_at_entries()
    ensures { LoopsAreEnteredAtEntries }
{
    code_is_laid_out();
}

/// A law of the loops of code: an edge out of a loop leads to one of its exits. Does nothing.
pub fn loops_are_left_to_exits()
    ensures { LoopsAreLeftToExits }
{}

/// A law of code of which each loop is entered at one block alone: a walk in the region of a loop, or in that of none,
/// repeats no block and no loop inside, unless it comes back to the region's entry.
pub fn walks_repeat_nothing()
    ensures { WalksRepeatNothing }
{
    code_is_laid_out();
}
