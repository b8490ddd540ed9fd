//! Kinds and facts as texts: `I`, `L`, `-`, `O`, `N`, `?` are Int, Long, Pad, Obj, Null, Top, and an array is a `[` and the
//! descriptor of its elements. A frame is its height and its slots; `mixed` are frames of different heights.

use case_texts::Case;
use class_pool::Text;
use kind_frames::{KindFact, KindFrame};
use slot_facts::Kind;
use std::str;

/// The kind of a text.
pub fn kind_of(case: &mut Case<'_>, word: &str) -> Kind {
    if let Some(element) = word.strip_prefix("[") {
        let element = Text::from_slice(case.alloc(), element.as_bytes());
        return match case.made(element) {
            Some(element) => Kind::Arr(element),
            None => Kind::Obj,
        };
    }
    match word {
        "I" => Kind::Int,
        "L" => Kind::Long,
        "-" => Kind::Pad,
        "O" => Kind::Obj,
        "N" => Kind::Null,
        _ => Kind::Top,
    }
}

/// Adds the kind to the answer.
pub fn put_kind(case: &mut Case<'_>, kind: &Kind) {
    case.put(match kind {
        Kind::Int => "I",
        Kind::Long => "L",
        Kind::Pad => "-",
        Kind::Arr(_) => "[",
        Kind::Obj => "O",
        Kind::Null => "N",
        Kind::Top => "?",
    });
    if let Kind::Arr(element) = kind {
        case.put(str::from_utf8(element.as_slice()).unwrap_or("?"));
    }
}

fn put_frame(case: &mut Case<'_>, frame: &KindFrame) {
    case.show(&frame.height);
    for kind in frame.slots.as_slice() {
        case.put(" ");
        put_kind(case, kind);
    }
}

/// Adds the fact to the answer.
pub fn put_fact(case: &mut Case<'_>, fact: &KindFact) {
    match fact {
        KindFact::Unreached => case.put("none"),
        KindFact::Known(frame) => put_frame(case, frame),
        KindFact::Mixed => case.put("mixed"),
    }
}
