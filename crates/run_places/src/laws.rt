ghost use Rattle.run_places.specs.Standing.{OutcomesLeadToSuccessors, RunsStand, StepsStand};

/// A law of all instructions: where one goes on in its frame, it goes to one of its successors. Does nothing.
pub fn outcomes_lead_to_successors()
    ensures { OutcomesLeadToSuccessors }
{}

/// A law of all steps: from a well-formed configuration in which all frames stand so they lead to one in which all do.
/// Does nothing.
pub fn steps_stand()
    ensures { StepsStand }
{}

/// A law of all runs of methods that call none but one another: in each configuration each frame, also one that waits,
/// stands at an instruction to which successors lead from the beginning of its method's code. Does nothing.
pub fn runs_stand()
    ensures { RunsStand }
{}
