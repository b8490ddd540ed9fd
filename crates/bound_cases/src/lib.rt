//! What cases on bounds are answered.
#![tactic(auto)]

mod bounds;

use case_texts::Case;

/// Answers the case, and tells whether the subject is one of these.
pub fn answer(subject: &str, case: &mut Case<'_>) -> bool {
    if subject == "bounds" {
        bounds::answer(case);
        return true;
    }
    false
}
