//! What cases on rules and relations are answered.
#![tactic(auto)]

mod calling;
mod deep;
mod rules;
mod unfoldings;
mod writing;

use case_texts::Case;

/// Answers the case, and tells whether the subject is one of these.
pub fn answer(subject: &str, case: &mut Case<'_>) -> bool {
    if subject == "rules" {
        rules::answer(case);
        return true;
    }
    if subject == "unfoldings" {
        unfoldings::answer(case);
        return true;
    }
    false
}
