//! What cases on the machine, the code that is reached and its costs are answered, each subject in a module of its own.
#![tactic(auto)]

mod counters;
mod entry;
mod heaps;
mod lengths;
mod prices;
mod runs;
mod values;
mod words;

use case_texts::Case;

/// Answers the case, where the subject is one of these on runs.
fn answer_runs(subject: &str, case: &mut Case<'_>) -> bool {
    match subject {
        "counters" => counters::answer(case),
        "entries" => entry::answer(case),
        "frames" => words::answer(case),
        "steps" => runs::answer(case),
        _ => return false,
    }
    true
}

/// Answers the case, and tells whether the subject is one of these.
pub fn answer(subject: &str, case: &mut Case<'_>) -> bool {
    match subject {
        "heaps" => heaps::answer(case),
        "lengths" => lengths::answer(case),
        "prices" => prices::answer(case),
        _ => return answer_runs(subject, case),
    }
    true
}
