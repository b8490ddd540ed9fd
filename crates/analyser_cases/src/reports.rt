//! What the program answers to words, on files that are edits of one that is given, with an outside that fails.

use crate::programs::tell;
use case_texts::Case;
use case_texts::texts::{bytes_of, words_of};
use class_pool::{Bytes, Text};
use outside_cases::add_file;
use ports::{MemoryShelf, MemorySink};

/// What stands around a question: the files, the fetches that fail, and the calls of the sink that fail.
#[derive(Drop)]
struct Outside {
    files: Vec<(Text, Bytes)>,
    fails: Vec<u64>,
    refusals: Vec<(u64, u32)>,
}

/// The bytes without some, and others in their place: the edit has the offset, how many are cut out, and the bytes that
/// are put in, each in two hexadecimal digits.
fn spliced(case: &mut Case<'_>, bytes: &[u8], edit: &str) -> Vec<u8> {
    let edit = bytes_of(case, edit);
    let mut found = Vec::new(case.alloc());
    if let [at, cut, put @ ..] = edit.as_slice() {
        let start = usize::from(*at).min(bytes.len());
        let end = start.saturating_add(usize::from(*cut)).min(bytes.len());
        case.append(&mut found, &bytes[..start]);
        case.append(&mut found, put);
        case.append(&mut found, &bytes[end..]);
    }
    found
}

/// The given file after the edits that come next, with a `+` between each two.
fn edited(case: &mut Case<'_>) -> Vec<u8> {
    let given = case.given();
    let mut file = bytes_of(case, given);
    for edit in case.rest().split('+') {
        if !edit.is_empty() {
            file = spliced(case, file.as_slice(), edit);
        }
    }
    file
}

fn add_edited(case: &mut Case<'_>, outside: &mut Outside) {
    let path = case.word();
    let file = edited(case);
    add_file(case, &mut outside.files, path, file);
}

fn add_zeros(case: &mut Case<'_>, outside: &mut Outside) {
    let path = case.word();
    let count: usize = case.number();
    let zeros = vec![in case.alloc(); 0; count];
    if let Some(file) = case.made(zeros) {
        add_file(case, &mut outside.files, path, file);
    }
}

fn add_refusal(case: &mut Case<'_>, outside: &mut Outside) {
    let call = case.until(":");
    let refusal = (case.parsed(call), case.number());
    case.add(&mut outside.refusals, refusal);
}

/// Adds what a part says: `fail N` that the fetch N fails, `refuse N:K` that the put N fails after K bytes, `zeros PATH N`
/// a file of N zeros, and `file PATH EDITS` the given file after edits.
fn add(case: &mut Case<'_>, outside: &mut Outside) {
    match case.word() {
        "fail" => {
            let call = case.number();
            case.add(&mut outside.fails, call);
        }
        "file" => add_edited(case, outside),
        "refuse" => add_refusal(case, outside),
        "zeros" => add_zeros(case, outside),
        _ => case.malformed("no such part"),
    }
}

/// What stands around a question: each part has a `|` before it.
fn outside_of(case: &mut Case<'_>) -> Outside {
    let mut outside = Outside {
        files: Vec::new(case.alloc()),
        fails: Vec::new(case.alloc()),
        refusals: Vec::new(case.alloc()),
    };
    for part in case.rest().split_terminator('|') {
        case.turn_to(part.trim());
        add(case, &mut outside);
    }
    outside
}

/// How often a fetch failed and a file was too long, where it did.
fn put_counts(case: &mut Case<'_>, shelf: &MemoryShelf) {
    let (faults, longs) = (shelf.faults().count(), shelf.longs().count());
    if faults != 0 || longs != 0 {
        case.put(", ");
        case.show(&faults);
        case.put(" faults, ");
        case.show(&longs);
        case.put(" long files");
    }
}

/// The input is the words, and each part of what stands around them behind a `|`.
pub fn answer(case: &mut Case<'_>) {
    let line = case.until("|");
    let words = words_of(case, line);
    let outside = outside_of(case);
    let mut shelf = MemoryShelf::new(case.alloc(), outside.files, outside.fails);
    let out = MemorySink::new(case.alloc(), outside.refusals);
    tell(case, &words, &mut shelf, out);
    put_counts(case, &shelf);
}
