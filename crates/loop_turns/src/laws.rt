//! The laws of turns, at machines of numbers. Nothing runs here: each contract is the law.
ghost use Rattle.loop_turns.specs.Laws.{NestsAreTurns, RunningIsOnTop, CallsAreTurns, HistoryIsKept};

/// A nest of activations is a nest of turns at the same cost, with the running activation's turn on top, where loops are
/// entered at their entries alone and none is ended in.
pub fn nests_are_turns()
    ensures nests { NestsAreTurns }
    ensures top { RunningIsOnTop }
{}

/// A call that is done is its method's turn, done, at the same cost.
pub fn calls_are_turns()
    ensures { CallsAreTurns }
{}

/// What an activation went through since it started is kept by each step, so laws of turns may rest on it.
pub fn history_is_kept()
    ensures { HistoryIsKept }
{}
