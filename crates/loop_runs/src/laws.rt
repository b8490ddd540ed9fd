ghost use Rattle.loop_runs.specs.Unchanged.{CallsKeepLocals, LoopsKeepLocals, OutcomesKeepLocals};

/// A law of all instructions: where one goes on in its frame, it leaves each local that it doesn't store to. Does nothing.
pub fn outcomes_keep_locals()
    ensures { OutcomesKeepLocals }
{}

/// A law of calls: behind one the frame has the locals that it had before. Does nothing.
pub fn calls_keep_locals()
    ensures { CallsKeepLocals }
{}

/// A law of loops: while a frame stays in the blocks of one, the locals that the loop doesn't change keep their words. Does
/// nothing.
pub fn loops_keep_locals()
    ensures { LoopsKeepLocals }
{}
