//! What the program answers to cases: command lines with the classes, files or chains of classes that they are asked of.
#![tactic(auto)]

mod chains;
mod programs;
mod reports;

use case_texts::Case;

/// Answers the case, and tells whether the subject is one of these.
pub fn answer(subject: &str, case: &mut Case<'_>) -> bool {
    match subject {
        "chains" => chains::answer(case),
        "programs" => programs::answer(case),
        "reports" => reports::answer(case),
        _ => return false,
    }
    true
}
