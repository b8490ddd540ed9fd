//! The laws of nested runs, at the counters. Each holds of every nest and every run.
ghost use Rattle.nested_runs.specs.Laws.{RunsAreNested, NestsAreSteps, RunsAreBounded, CallsPayForWhatTheyUse, NestsKeepThePlan, CountersFall, CountersStayBelow, CallsLeaveLess, SameNestsGuarded, SameCallsGuarded, NestsAreLooped};

/// Each step keeps the nest, so each run has one.
pub fn runs_are_nested()
    ensures { RunsAreNested }
{}

/// Nests and flat runs of stacks are the same.
pub fn nests_are_steps()
    ensures { NestsAreSteps }
{}

/// What is nested is spent: each run costs at most the bound of the first counter.
pub fn runs_are_bounded()
    ensures { RunsAreBounded }
{}

/// What is done is passed: a call costs at most what the counter fell by pays for, and its return.
pub fn calls_pay_for_what_they_use()
    ensures { CallsPayForWhatTheyUse }
{}

/// What may be spent may rest on what each step keeps: a plan for one counter and its calls is kept.
pub fn nests_keep_the_plan()
    ensures { NestsKeepThePlan }
{}

/// What each step keeps holds since the start of each open activation.
pub fn counters_fall()
    ensures since { CountersFall }
    ensures each { CountersStayBelow }
{}

/// What each step keeps holds over each call that is done.
pub fn calls_leave_less()
    ensures { CallsLeaveLess }
{}

/// The machine strengthened by what each step keeps has the same nests and the same calls.
pub fn same_when_guarded()
    ensures nests { SameNestsGuarded }
    ensures calls { SameCallsGuarded }
{}

/// A finer machine, of frames and turns, carries each nest.
pub fn nests_are_looped()
    ensures { NestsAreLooped }
{}
