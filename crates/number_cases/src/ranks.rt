//! Small rankings of steps. A step is its rows, `to`, and each next value, as `1 -1 0, 0 1 2 to 1 0 1, 0 1 0`, and steps are
//! parted by `;`. Where there are no rows `none` stands for them. The answer is the function with its fractions, both made
//! whole, and which steps are live.

ghost use Rattle.std.specs.Prelude.{◌≡◌, ◌<◌, ◌^◌, length, All, IsTrue};
ghost use Rattle.small_rank.specs.Answer.{sizes_of};

use crate::fractions::put_fraction;
use crate::lins::lin_of;
use crate::rows::rows_of;
use case_texts::Case;
use lin_rows::{Lin, Sequence, Transition};
use small_rank::{SmallRank, StepProof, small_rank};
use std::alloc::AllocError;

fn next_of(case: &mut Case<'_>, text: &str) -> Sequence<Lin> {
    let mut next = Sequence::new(case.alloc());
    for part in text.split(',') {
        if let Some(lin) = lin_of(case, part, ' ') {
            let added = next.push(lin);
            case.keep(added);
        }
    }
    next
}

/// The step of a text.
fn step_of(case: &mut Case<'_>, text: &str) -> Transition {
    let (rows, next) = case.halves(text.trim(), " to ");
    let rows = match rows {
        "none" => Sequence::new(case.alloc()),
        _ => rows_of(case, rows),
    };
    Transition {
        rows,
        next: next_of(case, next),
    }
}

fn steps_of(case: &mut Case<'_>, text: &str) -> Vec<Transition> {
    let mut steps = Vec::new(case.alloc());
    for part in text.split(';') {
        let step = step_of(case, part);
        case.add(&mut steps, step);
    }
    steps
}

/// The coefficients of an expression.
fn put_coefficients(case: &mut Case<'_>, lin: &Lin) {
    for coefficient in lin.coefficients() {
        case.show_word(coefficient);
    }
}

fn put_rank(case: &mut Case<'_>, rank: &SmallRank) {
    put_coefficients(case, &rank.function);
    case.put_word("|");
    put_fraction(case, rank.gate);
    put_fraction(case, rank.fall);
    case.put_word("|");
    put_coefficients(case, &rank.f);
    case.put_word("|");
    case.show_word(&rank.c);
    case.show_word(&rank.d);
}

/// Whether the steps are live.
fn put_steps(case: &mut Case<'_>, steps: &[StepProof]) {
    for step in steps {
        case.put_word(match step {
            StepProof::Dead(_) => "dead",
            StepProof::Live { .. } => "live",
        });
    }
}

fn sizes_in(steps: &[Transition]) -> usize
    ensures { result ≡ sizes_of steps.now }
{
    match steps.first() {
        Some(step) => step.next.len(),
        None => 0,
    }
}

/// Whether the steps may be asked of: each has at most a thousand rows, and all have equally many next values.
fn are_fit(steps: &[Transition]) -> bool
    ensures rows { IsTrue result → All (λ t. length t.rows < 2 ^ 32) steps.now }
    ensures next { IsTrue result → All (λ t. length t.next ≡ sizes_of steps.now) steps.now }
{
    let sizes = sizes_in(steps);
    steps
        .iter()
        .all(|step| step.rows.len() <= 1000 && step.next.len() == sizes)
}

fn put_answer(case: &mut Case<'_>, steps: &[Transition]) {
    if !are_fit(steps) {
        case.malformed("too many rows, or not equally many next values");
        return;
    }
    match small_rank(case.alloc(), steps) {
        Ok(Some(rank)) => {
            put_rank(case, &rank);
            put_steps(case, rank.steps.as_slice());
        }
        Ok(None) => case.put("none"),
        Err(_) => case.keep(Err(AllocError)),
    }
}

pub fn answer(case: &mut Case<'_>) {
    let steps = match case.rest() {
        "no steps" => Vec::new(case.alloc()),
        text => steps_of(case, text),
    };
    put_answer(case, &steps);
}
