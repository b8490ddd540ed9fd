//! Programs from texts. Words are parted by spaces: the starts of points, a `:`, and edges. A start has a `0` or a `1`
//! for each slot, or is `-` where there is no slot. An edge is `SOURCE>GOAL` or `SOURCE+ALSO>GOAL`, and behind a `=`
//! its ways, parted by commas: `TO`, then `<FROM` and `&WITH` where the way has them.

use crate::edge::{Edge, Way};
use crate::program::Program;
use crate::slots::Slots;
use case_texts::Case;

/// The slots of a word.
fn slots_of(case: &mut Case<'_>, word: &str) -> Slots {
    let mut slots = Vec::new(case.alloc());
    for digit in word.chars() {
        match digit {
            '0' => case.add(&mut slots, false),
            '1' => case.add(&mut slots, true),
            '-' => {}
            _ => case.malformed("a slot is 0 or 1"),
        }
    }
    Slots::of(slots)
}

/// The number behind a sign, where the sign is there, and what stands before it.
fn cut<'a>(case: &mut Case<'_>, word: &'a str, sign: char) -> (&'a str, Option<u32>) {
    match word.split_once(sign) {
        Some((before, number)) => (before, Some(case.parsed(number))),
        None => (word, None),
    }
}

fn way_of(case: &mut Case<'_>, word: &str) -> Way {
    let (word, with) = cut(case, word, '&');
    let (to, from) = cut(case, word, '<');
    let to = case.parsed(to);
    Way { to, from, with }
}

fn ways_of(case: &mut Case<'_>, words: &str) -> Vec<Way> {
    let mut ways = Vec::new(case.alloc());
    for word in words.split_terminator(',') {
        let way = way_of(case, word);
        case.add(&mut ways, way);
    }
    ways
}

fn edge_of(case: &mut Case<'_>, word: &str) -> Edge {
    let (ends, words) = word.split_once('=').unwrap_or((word, ""));
    let (reads, goal) = case.halves(ends, ">");
    let (source, also) = cut(case, reads, '+');
    Edge {
        source: case.parsed(source),
        also,
        goal: case.parsed(goal),
        ways: ways_of(case, words),
    }
}

fn starts_of(case: &mut Case<'_>, words: &str) -> Vec<Slots> {
    let mut starts = Vec::new(case.alloc());
    for word in words.split_whitespace() {
        let slots = slots_of(case, word);
        case.add(&mut starts, slots);
    }
    starts
}

fn edges_of(case: &mut Case<'_>, words: &str) -> Vec<Edge> {
    let mut edges = Vec::new(case.alloc());
    for word in words.split_whitespace() {
        let edge = edge_of(case, word);
        case.add(&mut edges, edge);
    }
    edges
}

/// The program of the input.
pub fn program_of(case: &mut Case<'_>) -> Option<Program> {
    let edges = case.behind(":");
    let starts = case.rest();
    let starts = starts_of(case, starts);
    let edges = edges_of(case, edges);
    let program = Program::new(starts, edges);
    if program.is_none() {
        case.malformed("no program");
    }
    program
}

/// Adds the slots to the answer as a word.
pub fn put_slots(case: &mut Case<'_>, slots: &Slots) {
    for is_marked in slots.as_slice() {
        case.put(if *is_marked { "1" } else { "0" });
    }
    if slots.as_slice().is_empty() {
        case.put("-");
    }
}
