//! What cases on the hierarchy of classes and on worlds are answered; and the classes that a case gives, for the crates of
//! cases above.
#![tactic(auto)]

mod given;
mod hierarchies;
mod worlds;

use case_texts::Case;
pub use given::{class_name, name_of, put_method, shown, target_of, world_of};

/// Answers the case, and tells whether the subject is one of these.
pub fn answer(subject: &str, case: &mut Case<'_>) -> bool {
    match subject {
        "hierarchies" => hierarchies::answer(case),
        "worlds" => worlds::answer(case),
        _ => return false,
    }
    true
}
