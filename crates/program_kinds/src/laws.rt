ghost use Rattle.program_kinds.specs.Keeping.{KindsAreKept, MomentsAreAsKinds, RunsAreAsKinds};

/// A law of the machine's activations: that they are as their kinds say is kept by each move, call and return. Does nothing.
pub fn kinds_are_kept()
    ensures { KindsAreKept }
{}

/// A law of the moments of runs: each activation, also one that waits, as it stood before its call, is as its kinds say.
/// Does nothing.
pub fn moments_are_as_kinds()
    ensures { MomentsAreAsKinds }
{}

/// The same of each configuration of each run of a program's method. Does nothing.
pub fn runs_are_as_kinds()
    ensures { RunsAreAsKinds }
{}
