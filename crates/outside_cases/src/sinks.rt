//! What a sink in memory takes, and what it then counts.

use case_texts::Case;
use case_texts::texts::put_text;
use ports::{MemorySink, Put, Sink};

/// The calls that fail, each as its number, a `:` and how many bytes it takes.
fn fails_of(case: &mut Case<'_>, text: &str) -> Vec<(u64, u32)> {
    let mut fails = Vec::new(case.alloc());
    for word in text.split_whitespace() {
        let (call, taken) = case.halves(word, ":");
        let fail = (case.parsed(call), case.parsed(taken));
        case.add(&mut fails, fail);
    }
    fails
}

/// The input is the calls that fail, a `;`, and the pieces that are put. The answer is a word for each call, what the sink
/// has, and its count of faults.
pub fn answer(case: &mut Case<'_>) {
    let fails = case.until(";");
    let fails = fails_of(case, fails);
    let mut sink = MemorySink::new(case.alloc(), fails);
    for piece in case.rest().split_whitespace() {
        match sink.put(piece.as_bytes()) {
            Ok(()) => case.put("ok "),
            Err(Put::Failed) => case.put("failed "),
            Err(Put::Memory) => case.put("no memory "),
        }
    }
    case.put("'");
    put_text(case, sink.bytes());
    case.put("' ");
    case.show(&sink.faults());
}
