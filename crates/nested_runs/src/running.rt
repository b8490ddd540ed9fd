//! A run of the counters.
ghost use Rattle.std.specs.Prelude.{◌≡◌, ◌≤◌, IfOk};
ghost use Rattle.nested_runs.specs.Counting.{State, first_state, Runs, IsNested, bound};

use crate::counting::{Action, Counters};
use std::alloc::{AllocError, Global};

/// Why a run did not come to the end of its actions.
#[derive(Clone, Copy)]
pub enum RunError {
    /// An action was not possible where it came.
    Stuck,
    /// Memory ran out.
    Memory,
}

impl From<AllocError> for RunError {
    ghost use Rattle.std.specs.Prelude.{◌≡◌};
    ghost use Rattle.nested_runs.specs.declared.running.RunError.TheVariants.{Memory};

    ghost from_gives = { λ _ error. error ≡ Memory };

    fn from(_error: AllocError) -> Self {
        RunError::Memory
    }
}

/// Lets one counter make each action, one after another, with the counters that it calls. The run costs at
/// most what the first counter pays for.
pub fn run(alloc: Global, counter: u32, actions: &[Action]) -> Result<Counters, RunError>
    ensures runs { IfOk result (λ counters. Runs actions.now (first_state counter) counters) }
    ensures nested { IfOk result (λ counters. IsNested counter counters) }
    ensures bounded { IfOk result (λ counters. counters.spent ≤ bound counter) }
    ensures stuck { result ≡ Err RunError.Stuck → (last : State) → ¬ Runs actions.now (first_state counter) last }
{
    let mut counters = Counters::new(alloc, counter);
    for action in actions {
        if !counters.can(*action) {
            return Err(RunError::Stuck);
        }
        counters.make(*action)?;
    }
    Ok(counters)
}
