//! What the program answers to the words of a command line, on the files of classes that are given as text, each at its
//! class's name.

use analyser::{costa, exit_code};
use case_texts::Case;
use case_texts::assembler::assembled;
use case_texts::texts::{put_text, words_of};
use outside_cases::add_file;
use ports::{MemoryShelf, MemorySink};

/// A shelf with the files of these classes, which are parted by empty lines.
pub fn shelf_with(case: &mut Case<'_>, classes: &str) -> MemoryShelf {
    let mut files = Vec::new(case.alloc());
    for text in classes.split("\n\n") {
        let file = assembled(case, text);
        let name = text.split(' ').nth(1).unwrap_or("");
        add_file(case, &mut files, name, file);
    }
    MemoryShelf::new(case.alloc(), files, Vec::new(case.alloc()))
}

/// A report. One that doesn't end its line has a `|` behind it.
fn put_report(case: &mut Case<'_>, report: &[u8]) {
    match report {
        [line @ .., b'\n'] => put_text(case, line),
        _ => {
            put_text(case, report);
            case.put("|");
        }
    }
}

/// The exit status and the report on these words.
pub fn tell(case: &mut Case<'_>, words: &[String], shelf: &mut MemoryShelf, mut out: MemorySink) {
    let status = costa(case.alloc(), words, shelf, &mut out);
    case.show(&exit_code(&status));
    case.put(" ");
    put_report(case, out.bytes());
}

pub fn answer(case: &mut Case<'_>) {
    let line = case.rest();
    let words = words_of(case, line);
    let classes = case.given();
    let mut shelf = shelf_with(case, classes);
    let out = MemorySink::new(case.alloc(), Vec::new(case.alloc()));
    tell(case, &words, &mut shelf, out);
}
