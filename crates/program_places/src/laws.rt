ghost use Rattle.program_places.specs.Programs.{ProgramRunsStand, ProgramsAreClosed};

/// A law: the code of a program's methods is sound, and they call none but one another. Does nothing.
pub fn programs_are_closed()
    ensures { ProgramsAreClosed }
{}

/// A law of all runs of a program's method: each frame, also one that waits, stands at an instruction of a listed method to
/// which successors lead. Does nothing.
pub fn program_runs_stand()
    ensures { ProgramRunsStand }
{}
