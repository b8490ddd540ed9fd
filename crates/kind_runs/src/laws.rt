ghost use Rattle.kind_runs.specs.Keeping.{FactsAboveHold, InstructionsHaveEffects, KindsStay};

/// A law of all instructions: where one goes on in its frame, the frame is of the kinds that its effect says. Does nothing.
pub fn instructions_have_effects()
    ensures { InstructionsHaveEffects }
{}

/// A law of the order of kinds: a frame that is as a fact says is as each fact above it says. Does nothing.
pub fn facts_above_hold()
    ensures { FactsAboveHold }
{}

/// A law of heaps: a frame stays as a fact says where the heap keeps what it has. Does nothing.
pub fn kinds_stay()
    ensures { KindsStay }
{}
