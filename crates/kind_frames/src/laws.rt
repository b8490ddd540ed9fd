//! The laws of facts. Nothing runs here: each contract is the law.
ghost use Rattle.kind_frames.specs.Laws.{FactsAreOrdered, FactsHaveJoins, ChainsAreShort};

/// The facts of a method are partially ordered.
pub fn facts_are_ordered()
    ensures { FactsAreOrdered }
{}

/// The join of two facts is the least that both lie below.
pub fn facts_have_joins()
    ensures { FactsHaveJoins }
{}

/// A chain of rising facts has at most three for each slot, and three.
pub fn chains_are_short()
    ensures { ChainsAreShort }
{}
