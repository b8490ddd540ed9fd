//! Where runs of a program stand, and what they cost.
ghost use Rattle.call_costs.specs.Standing.{RunsStand, CostsBoundRuns};

/// A law of runs: each configuration of a run of a program's method stands at an instruction of a listed method.
/// Does nothing.
pub fn runs_stand()
    ensures { RunsStand }
{}

/// A law of runs: at each moment a run of a program's method has spent at most the method's cost. Does nothing.
pub fn costs_bound_runs()
    ensures { CostsBoundRuns }
{}
