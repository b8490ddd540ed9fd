//! What a shelf in memory answers to fetches, and what it then counts.

use crate::files::add_file;
use case_texts::Case;
use case_texts::texts::put_text;
use class_pool::{Bytes, Text};
use ports::{Blame, Fetch, MemoryShelf, Shelf};

/// The word, or nothing where it is `''`.
fn unquoted(word: &str) -> &str {
    if word == "''" { "" } else { word }
}

/// The bytes that a text stands for: `zeros:N` for N zeros, `''` for none.
fn content_of(case: &mut Case<'_>, text: &str) -> Vec<u8> {
    let content = match text.strip_prefix("zeros:") {
        Some(count) => vec![in case.alloc(); 0; case.parsed::<usize>(count)],
        None => Vec::from_slice(case.alloc(), unquoted(text).as_bytes()),
    };
    case.made(content).unwrap_or(Vec::new(case.alloc()))
}

/// The files of the given lines `PATH CONTENT`.
fn files_of(case: &mut Case<'_>) -> Vec<(Text, Bytes)> {
    let mut files = Vec::new(case.alloc());
    for line in case.given().lines() {
        let (path, content) = case.halves(line, " ");
        let content = content_of(case, content);
        add_file(case, &mut files, path, content);
    }
    files
}

/// The numbers of a text, parted by spaces.
fn numbers_of(case: &mut Case<'_>, text: &str) -> Vec<u64> {
    let mut numbers = Vec::new(case.alloc());
    for word in text.split_whitespace() {
        let number = case.parsed(word);
        case.add(&mut numbers, number);
    }
    numbers
}

fn put_count(case: &mut Case<'_>, label: &str, blame: &Blame) {
    case.put(label);
    case.show(&blame.count());
    case.put(" '");
    put_text(case, blame.path());
    case.put("'");
}

/// What a file has, shortened to how many bytes these are where they are many.
fn put_content(case: &mut Case<'_>, bytes: &[u8]) {
    if bytes.len() > 100 {
        case.show(&bytes.len());
        case.put(" bytes");
    } else {
        case.put("'");
        put_text(case, bytes);
        case.put("'");
    }
}

/// What the last fetch of these paths gives.
fn put_last(case: &mut Case<'_>, shelf: &mut MemoryShelf, paths: &str) {
    let mut last = Err(Fetch::Memory);
    for path in paths.split_whitespace() {
        last = shelf.fetch(unquoted(path));
    }
    match last {
        Ok(bytes) => put_content(case, bytes.as_slice()),
        Err(Fetch::Failed) => case.put("failed"),
        Err(Fetch::TooLong) => case.put("too long"),
        Err(Fetch::Memory) => case.put("no memory"),
    }
}

/// The input is the numbers of the fetches that fail, a `;`, and the paths. The answer is that to the last fetch, and the
/// counts with their paths.
pub fn answer(case: &mut Case<'_>) {
    let files = files_of(case);
    let fails = case.until(";");
    let fails = numbers_of(case, fails);
    let mut shelf = MemoryShelf::new(case.alloc(), files, fails);
    let paths = case.rest();
    put_last(case, &mut shelf, paths);
    put_count(case, ", faults ", shelf.faults());
    put_count(case, ", long files ", shelf.longs());
}
