//! The method that a word names: its class, its name and its descriptor.

use case_texts::Case;
use case_texts::texts::{push_word, put_text};
use class_pool::Target;
use cost_words::{Command, WordFault, WordKind, read};
use descriptors::is_method_text;
use std::alloc::{AllocError, Global};

/// The parts of a target, with a space between each two.
pub fn put_target(case: &mut Case<'_>, target: &Target) {
    put_text(case, target.class.as_slice());
    case.put(" ");
    put_text(case, target.method.as_slice());
    case.put(" ");
    put_text(case, target.desc.as_slice());
}

fn is_bad_target(fault: &WordFault) -> bool {
    matches!(
        fault,
        WordFault::Wrong {
            kind: WordKind::BadTarget,
            index: 2
        }
    )
}

/// What a command says of its target, which is the word.
fn put_named(case: &mut Case<'_>, word: &str) {
    let mut words = Vec::new(case.alloc());
    for word in ["bound", word, "a"] {
        push_word(case, &mut words, word);
    }
    let answer = read(case.alloc(), words.as_slice());
    match &answer {
        Ok(Command::Bound { target, .. }) => put_target(case, target),
        Err(fault) if is_bad_target(fault) => case.put("none"),
        _ => case.malformed("another command or fault"),
    }
}

/// A target with so many long parameters and an array of so many dimensions, which are no limits of a word.
fn long_target(alloc: Global, longs: u32, dimensions: u32) -> Result<String, AllocError> {
    let mut word = Case::new(alloc, "", "");
    word.put("P.a:(");
    for _ in 0..longs {
        word.put("J");
    }
    for _ in 0..dimensions {
        word.put("[");
    }
    word.put("I)V");
    word.end()
}

/// How many bytes the parts of a long target have, and how many it has.
fn put_lengths(case: &mut Case<'_>, word: &str) {
    let mut named = Case::new(case.alloc(), "", "");
    put_named(&mut named, word);
    if let Ok(parts) = named.end() {
        case.show(&parts.len());
        case.put(" bytes for ");
        case.show(&word.len());
    }
}

fn put_long(case: &mut Case<'_>) {
    let (longs, dimensions) = (case.number(), case.number());
    if let Ok(word) = long_target(case.alloc(), longs, dimensions) {
        put_lengths(case, word.as_str());
    }
}

/// The word of the input; `many N M` is one of N parameters and M dimensions, and `descriptor D` asks for D alone.
pub fn answer(case: &mut Case<'_>) {
    match case.word() {
        "descriptor" => {
            let is_one = is_method_text(case.rest().as_bytes());
            case.show(&is_one);
        }
        "many" => put_long(case),
        word => put_named(case, word),
    }
}
