//! Descriptors (JVMS 4.3). The first word is the kind: of a `field`, of a `method` or of a `static` method. The words
//! behind it are the text, one after another; `N*WORD` is the word N times.

use case_texts::Case;
use case_texts::texts::words_of;
use descriptors::{is_field_descriptor, is_method_descriptor};

/// The text of the words that come next.
fn text_of(case: &mut Case<'_>) -> Vec<u8> {
    let words = case.rest();
    let mut text = Vec::new(case.alloc());
    for word in words_of(case, words) {
        case.append(&mut text, word.as_bytes());
    }
    text
}

pub fn answer(case: &mut Case<'_>) {
    let kind = case.word();
    let desc = text_of(case);
    let is_one = match kind {
        "field" => is_field_descriptor(&desc),
        "method" => is_method_descriptor(false, &desc),
        _ => is_method_descriptor(true, &desc),
    };
    case.show(&is_one);
}
