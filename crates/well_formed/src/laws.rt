ghost use Rattle.well_formed.specs.Keeping.{EntriesAreWellFormed, InstructionsKeep, RunsAreWellFormed, StepsKeep};
ghost use Rattle.well_formed.specs.WellFormed.{WorldsAreOfFiles};

/// A law of all instructions: where what the frame sees is well formed, so is what an instruction leaves, the frames of a
/// call, a result and a reference that is thrown. Does nothing.
pub fn instructions_keep()
    ensures { InstructionsKeep }
{}

/// A law of all steps: from a well-formed configuration they lead to one. Does nothing.
pub fn steps_keep()
    ensures { StepsKeep }
{}

/// A law of all entries: they are well formed. Does nothing.
pub fn entries_are_well_formed()
    ensures { EntriesAreWellFormed }
{}

/// A law of all runs: each of their configurations is well formed. Does nothing.
pub fn runs_are_well_formed()
    ensures { RunsAreWellFormed }
{}

/// A law of worlds: where each class has a file of bytes, fields have descriptors and code is of bytes, as the laws above
/// ask. Does nothing.
pub fn worlds_are_of_files()
    ensures { WorldsAreOfFiles }
{}
