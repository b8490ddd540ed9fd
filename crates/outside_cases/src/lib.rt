//! What cases on the outside of the program are answered: words of the command line, lines of a report, and what shelves
//! and sinks in memory do, each subject in a module of its own.
#![tactic(auto)]

mod files;
mod lines;
mod shelves;
mod sinks;
mod targets;
mod words;

use case_texts::Case;
pub use files::add_file;

/// Answers the case, and tells whether the subject is one of these.
pub fn answer(subject: &str, case: &mut Case<'_>) -> bool {
    match subject {
        "lines" => lines::answer(case),
        "shelves" => shelves::answer(case),
        "sinks" => sinks::answer(case),
        "targets" => targets::answer(case),
        "words" => words::answer(case),
        _ => return false,
    }
    true
}
