ghost use Rattle.word_steps.specs.Branches.{CasesAreJumps, JumpsAreCases};
ghost use Rattle.word_steps.specs.Computed.{ComputedIsMade, DivisionThrows, WordsAreComputed};

/// A law of the instructions that change words alone: what each makes is one of the cases, or it divides by 0, or it
/// stops; and each of the cases is made.
pub fn words_are_computed()
    ensures made { WordsAreComputed }
    ensures cases { ComputedIsMade }
    ensures throws { DivisionThrows }
{}

/// A law of the jumps: each is one of the cases, and each of the cases is a jump.
pub fn jumps_are_cases()
    ensures cases { JumpsAreCases }
    ensures made { CasesAreJumps }
{}
