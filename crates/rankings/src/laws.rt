//! The laws. Nothing runs here: each contract is the law.

ghost use Rattle.rankings.specs.Laws.{EntailedHolds, RankingFalls, RankingFollows, SmallFollows, SmallContradicts, KeptHolds, SmallKeptHolds, CapHolds, CapHoldsAtVisits, CapHoldsAtEntry, ShownIsGreatest};

/// What follows over rational points holds at whole numbers.
pub fn entailed_rows_hold()
    ensures { EntailedHolds }
{}

/// A ranking isn't below 0 before a step from whole numbers, and falls with it.
pub fn rankings_fall()
    ensures wholes { RankingFalls }
    // Both follow from the rows of each step.
    ensures rational { RankingFollows }
{}

/// Each template of an inductive set holds at each visit.
pub fn kept_templates_hold()
    ensures rational { KeptHolds }
    ensures small { SmallKeptHolds }
{}

/// A capped expression is at most its cap: where the rows hold, and at each visit.
pub fn caps_hold()
    ensures rows { CapHolds }
    // In a node that calls itself.
    ensures visits { CapHoldsAtVisits }
    // In one that doesn't.
    ensures entry { CapHoldsAtEntry }
{}

/// Multipliers for each kept template, and a point for each other one, show the greatest inductive set.
pub fn shown_sets_are_greatest()
    ensures { ShownIsGreatest }
{}

/// What is small follows over rational points, and rows that contradict each other by a small sum have none.
pub fn small_rows_follow()
    ensures rows { SmallFollows }
    ensures contradiction { SmallContradicts }
{}
