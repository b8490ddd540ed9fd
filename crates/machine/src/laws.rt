ghost use Rattle.machine.specs.Moment.{MomentsAreNests};

/// A law of all runs: each moment, or each unwrapped one, is the nest of the calls that are open since the entry.
pub fn moments_are_nests()
    ensures { MomentsAreNests }
{}
