//! What cases on class files, descriptors and instructions are answered, each subject in a module of its own.
#![tactic(auto)]

mod actions;
mod blocks;
mod byte_lists;
mod classfiles;
mod constructs;
mod cursors;
mod descriptor_texts;
mod edits;
mod instructions;
mod method_flags;
mod opcodes;
mod opcosts;
mod pools;
mod shared_names;
mod summaries;
mod switches;
mod utf8;

use case_texts::Case;

/// Answers the case, where the subject is one of these on instructions.
fn answer_code(subject: &str, case: &mut Case<'_>) -> bool {
    match subject {
        "actions" => actions::answer(case),
        "blocks" => blocks::answer(case),
        "constructs" => constructs::answer(case),
        "instructions" => instructions::answer(case),
        "opcodes" => opcodes::answer(case),
        "opcosts" => opcosts::answer(case),
        "switches" => switches::answer(case),
        _ => return false,
    }
    true
}

/// Answers the case, where the subject is one of these on bytes and texts.
fn answer_bytes(subject: &str, case: &mut Case<'_>) -> bool {
    match subject {
        "byte_lists" => byte_lists::answer(case),
        "cursors" => cursors::answer(case),
        "descriptors" => descriptor_texts::answer(case),
        "shared_names" => shared_names::answer(case),
        "utf8" => utf8::answer(case),
        _ => return answer_code(subject, case),
    }
    true
}

/// Answers the case, and tells whether the subject is one of these.
pub fn answer(subject: &str, case: &mut Case<'_>) -> bool {
    match subject {
        "classfiles" => classfiles::answer(case),
        "method_flags" => method_flags::answer(case),
        "pools" => pools::answer(case),
        _ => return answer_bytes(subject, case),
    }
    true
}
