//! The laws of the frames that come to a place. Nothing runs here: each contract is the law.
ghost use Rattle.frame_kinds.specs.Disagreeing.{SameFactsAreOne};
ghost use Rattle.frame_kinds.specs.Arriving.{FramesLieBelow, HeightsAreSeen, MixedComeApart};

use code_blocks::code_is_laid_out;

/// Each frame that comes to a place along a way through the code lies below each solution there.
pub fn frames_lie_below()
    ensures { FramesLieBelow }
{
    code_is_laid_out();
}

/// Where two ways through the code lead to a place with different heights, each solution says so.
pub fn heights_are_seen()
    ensures { HeightsAreSeen }
{
    code_is_laid_out();
}

/// Where the least solution says that frames of different heights come to a place, two ways through the code lead there
/// with different heights, if no descriptor of the constant pool is longer than a text of a class file.
pub fn mixed_come_apart()
    ensures { MixedComeApart }
{
    code_is_laid_out();
}

/// Facts of one method that lie below each other are one fact.
pub fn same_facts_are_one()
    ensures { SameFactsAreOne }
{}
