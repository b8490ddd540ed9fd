//! Small caps: rows, an expression, and the entry sizes, as `1 -1 0 to 0 1 3 over 0`, where rows and entry sizes that are none
//! are `none`. What is answered is the cap, without coefficients 0 at its end, or none.

use crate::lins::lin_of;
use crate::small::given_rows;
use case_texts::Case;
use lin_rows::Lin;
use small_caps::{SmallCap, small_cap};

/// How many coefficients there are before those of 0 at the end.
fn places_of(l: &Lin) -> u32 {
    let mut places = 0;
    for v in 0..l.len() {
        if l.get(v) != 0 {
            places = v + 1;
        }
    }
    places
}

fn put_cap(case: &mut Case<'_>, l: &Lin) {
    for v in 0..places_of(l) {
        case.show_word(&l.get(v));
    }
    case.show_word(&l.constant());
}

fn put_answer(case: &mut Case<'_>, answer: Option<SmallCap>) {
    match answer {
        Some(c) => put_cap(case, &c.cap),
        None => case.put("none"),
    }
}

fn entry_of(case: &mut Case<'_>, text: &str) -> Vec<u32> {
    let mut entry = Vec::new(case.alloc());
    if text == "none" {
        return entry;
    }
    for word in text.split_whitespace() {
        let number = case.parsed(word);
        case.add(&mut entry, number);
    }
    entry
}

pub fn answer(case: &mut Case<'_>) {
    let rows = case.until(" to ");
    let rows = given_rows(case, rows);
    let l = case.until(" over ");
    let l = lin_of(case, l, ' ');
    let entry = case.rest();
    let entry = entry_of(case, entry);
    if let Some(l) = l {
        let cap = small_cap(case.alloc(), rows.as_slice(), &l, &entry);
        if let Some(answer) = case.made(cap) {
            put_answer(case, answer);
        }
    }
}
