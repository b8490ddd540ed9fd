//! Who answers the cases of a subject.

use case_texts::Case;

/// Answers the case.
pub fn answer(subject: &str, case: &mut Case<'_>) {
    let is_known = outside_cases::answer(subject, case)
        || analyser_cases::answer(subject, case)
        || class_cases::answer(subject, case)
        || world_cases::answer(subject, case)
        || machine_cases::answer(subject, case)
        || number_cases::answer(subject, case)
        || relation_cases::answer(subject, case)
        || bound_cases::answer(subject, case)
        || graph_cases::answer(subject, case)
        || flow_cases::answer(subject, case)
        || kind_cases::answer(subject, case);
    if !is_known {
        case.malformed("no such subject");
    }
}
