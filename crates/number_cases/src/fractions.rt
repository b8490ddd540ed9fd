//! Sums, differences, products, quotients and comparisons of fractions, which are written `NUM/DEN`.

use case_texts::Case;
use q128::{Q, QOp, TooWide};
use std::cmp::Ordering;

/// The fraction of two numbers, which is 0 where the divisor is.
fn quotient_of(case: &mut Case<'_>, num: i128, den: i128) -> Result<Q, TooWide> {
    if den == 0 {
        case.malformed("a denominator is 0");
        return Ok(Q::whole(0));
    }
    Q::new(num, den)
}

/// The fraction that a word is.
pub fn fraction_of(case: &mut Case<'_>, word: &str) -> Q {
    let (num, den) = case.halves(word, "/");
    let (num, den) = (case.parsed(num), case.parsed(den));
    match quotient_of(case, num, den) {
        Ok(q) => q,
        Err(wide) => {
            case.malformed("a fraction of the input is too wide");
            wide.a
        }
    }
}

pub fn put_fraction(case: &mut Case<'_>, q: Q) {
    case.show_word(&q.numerator());
    case.put("/");
    case.show(&q.denominator());
}

fn put_operation(case: &mut Case<'_>, op: QOp) {
    match op {
        QOp::Add => case.put(" add"),
        QOp::Sub => case.put(" sub"),
        QOp::Mul => case.put(" mul"),
        QOp::Div => case.put(" div"),
    }
}

/// The fault: its two fractions and its operation.
pub fn put_wide(case: &mut Case<'_>, wide: TooWide) {
    case.put("too wide");
    put_fraction(case, wide.a);
    put_fraction(case, wide.b);
    put_operation(case, wide.op);
}

fn put_outcome(case: &mut Case<'_>, outcome: Result<Q, TooWide>) {
    match outcome {
        Ok(q) => put_fraction(case, q),
        Err(wide) => put_wide(case, wide),
    }
}

fn divide(case: &mut Case<'_>, a: Q, b: Q) {
    if b.numerator() == 0 {
        case.malformed("a divisor is 0");
        return;
    }
    put_outcome(case, a.div(b));
}

fn compare(case: &mut Case<'_>, a: Q, b: Q) {
    match a.cmp(&b) {
        Ordering::Less => case.put("less"),
        Ordering::Equal => case.put("equal"),
        Ordering::Greater => case.put("greater"),
    }
}

/// An operation on two fractions.
fn operate(case: &mut Case<'_>, name: &str, a: Q, b: Q) {
    match name {
        "add" => put_outcome(case, a.add(b)),
        "cmp" => compare(case, a, b),
        "div" => divide(case, a, b),
        "mul" => put_outcome(case, a.mul(b)),
        "sub" => put_outcome(case, a.sub(b)),
        _ => case.show(&(a == b)),
    }
}

/// An operation on the two fractions that come next.
fn tell(case: &mut Case<'_>, name: &str) {
    let (a, b) = (case.word(), case.word());
    let (a, b) = (fraction_of(case, a), fraction_of(case, b));
    operate(case, name, a, b);
}

pub fn answer(case: &mut Case<'_>) {
    match case.word() {
        "new" => {
            let (num, den) = (case.number(), case.number());
            let outcome = quotient_of(case, num, den);
            put_outcome(case, outcome);
        }
        "whole" => {
            let number = case.number();
            put_fraction(case, Q::whole(number));
        }
        name => tell(case, name),
    }
}
