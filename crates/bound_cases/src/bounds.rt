//! Bounds, their values and their texts. A bound is written with its parts in front: a number; `nat:2,0,1/3` with the
//! coefficients, the constant and the divisor; `pow:2:1,0/1` and `geo:2:1,0/1` with the base in front of these; `sum:2`, `prod:2`
//! and `max:2` with how many of the bounds in front are taken. A case is such a bound and sizes behind `at`, or the word
//! `normal` and a bound, or the word `read`, a text in angle brackets, and sizes behind `at`.

use bound_forms::BoundFault;
use bound_normal::normal;
use bound_terms::{Base, Bound, Nat, value};
use bound_text::{ReadFault, print, read};
use case_texts::Case;
use case_texts::texts::put_text;
use number_cases::lin_of;

fn nat_of(case: &mut Case<'_>, text: &str) -> Option<Nat> {
    let (expression, divisor) = case.halves(text, "/");
    let divisor = case.parsed(divisor);
    if divisor == 0 {
        case.malformed("a divisor isn't 0");
        return None;
    }
    let expression = lin_of(case, expression, ',')?;
    Some(Nat::new(expression, divisor))
}

fn powers_of(case: &mut Case<'_>, text: &str) -> Option<(Base, Nat)> {
    let (base, nat) = case.halves(text, ":");
    let base = case.parsed(base);
    if base == 0 {
        case.malformed("a base isn't 0");
        return None;
    }
    let nat = nat_of(case, nat)?;
    Some((Base::new(base), nat))
}

/// So many of the bounds in front.
fn taken(case: &mut Case<'_>, stack: &mut Vec<Bound>, count: &str) -> Vec<Bound> {
    let mut parts = Vec::new(case.alloc());
    let count: u32 = case.parsed(count);
    for _ in 0..count {
        match stack.pop() {
            Some(part) => case.add(&mut parts, part),
            None => case.malformed("too few bounds in front"),
        }
    }
    parts.reverse();
    parts
}

/// The bound of a name that takes what stands behind it.
fn leaf_of(case: &mut Case<'_>, name: &str, rest: &str) -> Option<Bound> {
    if name == "nat" {
        return Some(Bound::Nat(nat_of(case, rest)?));
    }
    let (base, nat) = powers_of(case, rest)?;
    match name {
        "geo" => Some(Bound::Geo(base, nat)),
        _ => Some(Bound::Pow(base, nat)),
    }
}

/// The bound of a word. Where there is none, this is noted.
fn bound_of(case: &mut Case<'_>, stack: &mut Vec<Bound>, word: &str) -> Bound {
    let (name, rest) = word.split_once(':').unwrap_or(("", word));
    match name {
        "" => Bound::Const(case.parsed(rest)),
        "max" => Bound::Max(taken(case, stack, rest)),
        "prod" => Bound::Prod(taken(case, stack, rest)),
        "sum" => Bound::Sum(taken(case, stack, rest)),
        _ => leaf_of(case, name, rest).unwrap_or(Bound::Const(0)),
    }
}

/// The last bound of a text.
fn bound_in(case: &mut Case<'_>, text: &str) -> Option<Bound> {
    let mut stack = Vec::new(case.alloc());
    for word in text.split_whitespace() {
        let bound = bound_of(case, &mut stack, word);
        case.add(&mut stack, bound);
    }
    stack.pop()
}

fn sizes_of(case: &mut Case<'_>, text: &str) -> Vec<i128> {
    let mut sizes = Vec::new(case.alloc());
    for word in text.split_whitespace() {
        let size = case.parsed(word);
        case.add(&mut sizes, size);
    }
    sizes
}

fn put_printed(case: &mut Case<'_>, bound: &Bound) {
    let printed = print(case.alloc(), bound);
    if let Some(text) = case.made(printed) {
        case.put(" ");
        put_text(case, text.as_slice());
    }
}

/// The value at the sizes, and the text.
fn tell(case: &mut Case<'_>, bound: &Bound, sizes: &[i128]) {
    match value(bound, sizes) {
        Ok(n) => case.show(&n),
        Err(_) => case.put("too big"),
    }
    put_printed(case, bound);
}

/// The value of the bound in front at the sizes behind, and the bound's text.
fn answer_value(case: &mut Case<'_>, text: &str) {
    let (front, sizes) = case.halves(text, " at");
    let bound = bound_in(case, front);
    let sizes = sizes_of(case, sizes);
    match bound {
        Some(bound) => tell(case, &bound, &sizes),
        None => case.malformed("a case has a bound"),
    }
}

/// The text of the bound's normal form, or the limit that it passes.
fn tell_normal(case: &mut Case<'_>, bound: Bound) {
    match normal(case.alloc(), bound) {
        Ok(form) => put_printed(case, &form),
        Err(BoundFault::Monomials) => case.put(" too many monomials"),
        Err(BoundFault::Coefficient) => case.put(" too great a coefficient"),
        Err(BoundFault::Memory) => case.put(" no memory"),
    }
}

fn answer_normal(case: &mut Case<'_>, text: &str) {
    case.put("normal");
    match bound_in(case, text) {
        Some(bound) => tell_normal(case, bound),
        None => case.malformed("a case has a bound"),
    }
}

/// The value of the bound that the text is of, at the sizes, and its text again, or that it is the text of none.
fn answer_read(case: &mut Case<'_>, text: &str) {
    let (front, sizes) = case.halves(text, "> at");
    let sizes = sizes_of(case, sizes);
    match read(case.alloc(), front.as_bytes()) {
        Ok(bound) => tell(case, &bound, &sizes),
        Err(ReadFault::At { offset: _ }) => case.put("no normal form"),
        Err(ReadFault::Memory) => case.put("no memory"),
    }
}

pub fn answer(case: &mut Case<'_>) {
    let text = case.rest();
    if let Some((_, bound)) = text.split_once("normal ") {
        answer_normal(case, bound);
    } else if let Some((_, text)) = text.split_once("read <") {
        answer_read(case, text);
    } else {
        answer_value(case, text);
    }
}
