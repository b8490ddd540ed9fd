//! Joins: a case is two kinds, and its answer their join.

use crate::shown::{kind_of, put_kind};
use case_texts::Case;
use kind_frames::joined;

pub fn answer(case: &mut Case<'_>) {
    let word = case.word();
    let one = kind_of(case, word);
    let word = case.word();
    let other = kind_of(case, word);
    if let Some(kind) = case.made(joined(&one, &other)) {
        put_kind(case, &kind);
    }
}
