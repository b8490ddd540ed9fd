//! Expressions, sums of rows, what they reach, and where rows hold. A row is its coefficients and its constant, as `1 -1 0`,
//! rows are parted by commas, multipliers are row numbers with factors, as `1:1/2`, and a point is t and its coordinates.

use crate::fractions::{fraction_of, put_fraction, put_wide};
use crate::lins::lin_of;
use case_texts::Case;
use lin_rows::{Comb, CombFault, Lin, Mults, Point, Row, Sequence, combine, holds, reaches};
use q128::{Q, TooWide};
use std::alloc::AllocError;

pub fn rows_of(case: &mut Case<'_>, text: &str) -> Sequence<Row> {
    let mut rows = Sequence::new(case.alloc());
    for part in text.split(',') {
        if let Some(lin) = lin_of(case, part, ' ') {
            let added = rows.push(Row { lin });
            case.keep(added);
        }
    }
    rows
}

fn add_mult(case: &mut Case<'_>, m: &mut Mults, word: &str) {
    let (row, factor) = case.halves(word, ":");
    let (row, factor) = (case.parsed(row), fraction_of(case, factor));
    let added = m.push(row, factor);
    case.keep(added);
}

fn mults_of(case: &mut Case<'_>, text: &str) -> Mults {
    let mut m = Mults::new(case.alloc());
    for word in text.split_whitespace() {
        add_mult(case, &mut m, word);
    }
    m
}

/// The fractions that words are.
fn fractions_of(case: &mut Case<'_>, text: &str) -> Vec<Q> {
    let mut fractions = Vec::new(case.alloc());
    for word in text.split_whitespace() {
        let fraction = fraction_of(case, word);
        case.add(&mut fractions, fraction);
    }
    fractions
}

/// The point or ray of a text.
fn point_of(case: &mut Case<'_>, text: &str) -> Point {
    let (t, v) = text.split_once(' ').unwrap_or((text, ""));
    Point {
        t: fraction_of(case, t),
        v: Sequence::from(fractions_of(case, v)),
    }
}

/// The length, the coefficient of a variable and the constant.
fn put_lin(case: &mut Case<'_>, lin: &Lin, v: u32) {
    case.show(&lin.len());
    case.show_word(&lin.coefficients().len());
    case.show_word(&lin.is_empty());
    case.show_word(&lin.get(v));
    case.show_word(&lin.constant());
}

/// What a copy of an expression is, and a variable in it.
fn tell_lin(case: &mut Case<'_>) {
    let lin = case.until(" at ");
    let v = case.number();
    if let Some(lin) = lin_of(case, lin, ' ')
        && let Ok(copy) = lin.clone()
    {
        put_lin(case, &copy, v);
    }
}

/// A sum: its coefficients, one past its places too, and its constant.
fn put_comb(case: &mut Case<'_>, sum: &Comb) {
    for v in 0..sum.len() {
        put_fraction(case, sum.get(v));
    }
    put_fraction(case, sum.get(sum.len()));
    put_fraction(case, sum.constant());
    case.show_word(&sum.is_empty());
}

fn put_sum(case: &mut Case<'_>, rows: &Sequence<Row>, m: &Mults) {
    if !m.are_rows_of(rows.len()) {
        case.malformed("a number is no row");
        return;
    }
    match combine(case.alloc(), rows.as_slice(), m) {
        Ok(sum) => put_comb(case, &sum),
        Err(CombFault::TooWide(wide)) => put_wide(case, wide),
        Err(CombFault::Memory) => case.keep(Err(AllocError)),
    }
}

fn tell_sum(case: &mut Case<'_>) {
    let rows = case.until(" by ");
    let rows = rows_of(case, rows);
    let m = case.rest();
    let m = mults_of(case, m);
    put_sum(case, &rows, &m);
}

/// Yes or no, or the fault.
fn put_verdict(case: &mut Case<'_>, verdict: Result<bool, TooWide>) {
    match verdict {
        Ok(yes) => case.show(&yes),
        Err(wide) => put_wide(case, wide),
    }
}

/// Whether the multipliers reach the goal, with a scratch of three places.
fn put_reached(
    case: &mut Case<'_>,
    rows: &Sequence<Row>,
    m: &Mults,
    goal: &Row,
    scratch: &mut Comb,
) {
    if rows.is_empty()
        || !m.are_rows_of(rows.len())
        || !scratch.has_room(rows.as_slice())
        || goal.lin.len() > scratch.len()
    {
        case.malformed("a number is no row, or there is no room");
        return;
    }
    let first = reaches(rows.as_slice(), m, goal, scratch);
    let again = reaches(rows.as_slice(), m, goal, scratch);
    if first != again || scratch.len() != 3 {
        case.malformed("the scratch was changed");
    }
    put_verdict(case, first);
}

/// Asks it of copies.
fn tell_reached_of(case: &mut Case<'_>, rows: &Sequence<Row>, m: &Mults, goal: &Row) {
    let scratch = Comb::room(case.alloc(), 3);
    let rows: Result<_, _> = rows.clone();
    let m: Result<_, _> = m.clone();
    if let (Ok(rows), Ok(m), Ok(mut scratch)) = (rows, m, scratch) {
        put_reached(case, &rows, &m, goal, &mut scratch);
    }
}

fn tell_reached(case: &mut Case<'_>) {
    let rows = case.until(" by ");
    let rows = rows_of(case, rows);
    let m = case.until(" to ");
    let m = mults_of(case, m);
    let goal = case.rest();
    if let Some(lin) = lin_of(case, goal, ' ') {
        tell_reached_of(case, &rows, &m, &Row { lin });
    }
}

/// Whether a copy of the row holds at a copy of the point.
fn put_held(case: &mut Case<'_>, row: &Row, point: &Point) {
    let row: Result<_, _> = row.clone();
    let point: Result<_, _> = point.clone();
    if let (Ok(row), Ok(point)) = (row, point) {
        put_verdict(case, holds(&row, &point));
    }
}

fn tell_held(case: &mut Case<'_>) {
    let row = case.until(" at ");
    let row = lin_of(case, row, ' ');
    let point = case.rest();
    let point = point_of(case, point);
    if let Some(lin) = row {
        put_held(case, &Row { lin }, &point);
    }
}

pub fn answer(case: &mut Case<'_>) {
    match case.word() {
        "holds" => tell_held(case),
        "lin" => tell_lin(case),
        "reaches" => tell_reached(case),
        "sum" => tell_sum(case),
        _ => case.malformed("no such operation"),
    }
}
