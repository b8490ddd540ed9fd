//! Nested runs: what a stack of calls has done, over any machine of activations (the definitions in
//! `specs`, the laws in `proofs`), and a small machine of counters, as code, at which each law is used.
#![tactic(auto)]

mod counting;
mod laws;
mod running;

pub use counting::{Action, Counters};
pub use laws::{
    calls_leave_less, calls_pay_for_what_they_use, counters_fall, nests_are_looped,
    nests_are_steps, nests_keep_the_plan, runs_are_bounded, runs_are_nested, same_when_guarded,
};
pub use running::{RunError, run};
