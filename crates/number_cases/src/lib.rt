//! What cases on fractions, rows, their sums, small rankings and small caps are answered, each subject in a module of its
//! own.
#![tactic(auto)]

mod caps;
mod fractions;
mod lins;
mod ranks;
mod rows;
mod small;

use case_texts::Case;
pub use lins::lin_of;

/// Answers the case, and tells whether the subject is one of these.
pub fn answer(subject: &str, case: &mut Case<'_>) -> bool {
    match subject {
        "caps" => caps::answer(case),
        "fractions" => fractions::answer(case),
        "ranks" => ranks::answer(case),
        "rows" => rows::answer(case),
        "small" => small::answer(case),
        _ => return false,
    }
    true
}
