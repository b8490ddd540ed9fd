//! Answers to inputs one after another, shown shortly.

use case_texts::Case;
use std::alloc::Global;

/// The last of the answers.
#[derive(Drop)]
pub struct Summary {
    last: String,
}

impl Summary {
    /// No answers.
    pub fn new(alloc: Global) -> Summary {
        Summary {
            last: String::new(alloc),
        }
    }

    /// Adds the answer to the next input, which is this number, where it isn't that to the one before.
    pub fn add(&mut self, case: &mut Case<'_>, input: usize, answer: Case<'_>) {
        let answer = answer.end();
        if let Some(text) = case.made(answer)
            && text != self.last
        {
            case.part(", ");
            case.put(text.as_str());
            case.put(" from ");
            case.show(&input);
            self.last = text;
        }
    }
}
