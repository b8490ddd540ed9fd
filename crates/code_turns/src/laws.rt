ghost use Rattle.code_turns.specs.Moments.{MomentsAreTurns};
ghost use Rattle.code_turns.specs.Staying.{LoopTurnsKeepLocals, LoopTurnsStay};

/// A law of all runs of methods whose code has loops that are entered at their entries alone: each moment is a nest of turns
/// at the same cost, with the running frame's turn on top. Does nothing.
pub fn moments_are_turns()
    ensures { MomentsAreTurns }
{}

/// A law of loops: over a turn of one, with the turns inside it and the calls among them, the frame stays in the loop's
/// blocks. Does nothing.
pub fn loop_turns_stay()
    ensures { LoopTurnsStay }
{}

/// A law of loops: over a turn of one the locals that the loop doesn't change keep their words (JVMS 2.6.1). Does nothing.
pub fn loop_turns_keep_locals()
    ensures { LoopTurnsKeepLocals }
{}
