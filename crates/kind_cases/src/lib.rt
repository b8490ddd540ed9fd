//! What cases on the kinds of a method's frames are answered.
#![tactic(auto)]

mod joins;
mod loops;
mod methods;
mod shown;
mod soundness;

use case_texts::Case;
use methods::Asked;

/// Answers the case, and tells whether the subject is one of these.
pub fn answer(subject: &str, case: &mut Case<'_>) -> bool {
    match subject {
        "joined_kinds" => joins::answer(case),
        "kinds" => methods::answer(case, Asked::Kinds),
        "loops" => methods::answer(case, Asked::Loops),
        _ => return false,
    }
    true
}
