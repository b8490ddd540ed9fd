//! Names whose bytes are shared. The answer to two words has the first from a copy of its name, and whether the copy is
//! the name, is a name of the second, and has the bytes of the second.

use case_texts::Case;
use case_texts::texts::put_text;
use class_pool::Text;

fn name_of(case: &mut Case<'_>, word: &str) -> Option<Text> {
    let name = Text::from_slice(case.alloc(), word.as_bytes());
    case.made(name)
}

/// Tells what a copy of a name is.
fn tell(case: &mut Case<'_>, name: &Text, other: &Text, word: &str) {
    let copy = name.share();
    if let Some(copy) = case.made(copy) {
        put_text(case, copy.as_slice());
        case.show_word(&(copy == *name));
        case.show_word(&(copy == *other));
        case.show_word(&copy.is_same(word.as_bytes()));
    }
}

pub fn answer(case: &mut Case<'_>) {
    let (first, second) = (case.word(), case.word());
    let name = name_of(case, first);
    let other = name_of(case, second);
    if let (Some(name), Some(other)) = (name, other) {
        tell(case, &name, &other, second);
    }
}
