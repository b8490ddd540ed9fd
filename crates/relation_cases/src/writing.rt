//! Rules in text. A word is an item, and what stands behind it are the words that follow: `s5` spends 5, `f2` makes variable 2,
//! `a1,-1,-1` asks x0 - x1 - 1 to be at least 0 (the constant stands last), `c0:1,0/0,1,1` calls node 0 with x0 and x1 + 1,
//! `.` is an end, and behind `|` stand two rules, one after the other.

use case_texts::Case;
use lin_rows::{Lin, Row, Sequence};
use number_cases::lin_of;
use rule_terms::{Item, Rule};
use std::alloc::AllocError;

fn args_of(case: &mut Case<'_>, text: &str) -> Sequence<Lin> {
    let mut args = Sequence::new(case.alloc());
    for part in text.split_terminator('/') {
        if let Some(lin) = lin_of(case, part, ',') {
            let added = args.push(lin);
            case.keep(added);
        }
    }
    args
}

// A call behind which the rest stands.
fn call_of(case: &mut Case<'_>, text: &str, rest: Box<Rule>) -> Rule {
    let (node, args) = case.halves(text, ":");
    let node = case.parsed(node);
    Rule::Call(node, args_of(case, args), rest)
}

// The item of a word with the rest behind it.
fn item_of(case: &mut Case<'_>, word: &str, rest: Box<Rule>) -> Option<Rule> {
    let text = word.get(1..).unwrap_or("");
    match word.as_bytes().first().copied().unwrap_or(b'?') {
        b'a' => {
            let lin = lin_of(case, text, ',')?;
            Some(Rule::Assume(Row { lin }, rest))
        }
        b'c' => Some(call_of(case, text, rest)),
        b'f' => Some(Rule::Fresh(case.parsed(text), rest)),
        _ => Some(Rule::Spend(case.parsed(text), rest)),
    }
}

// The last rule, to be a part of another.
fn last_of(case: &mut Case<'_>, rules: &mut Vec<Rule>) -> Option<Box<Rule>> {
    let last = Box::new(case.alloc(), rules.pop()?);
    if last.is_err() {
        case.keep(Err(AllocError));
    }
    last.ok()
}

// A split of the last two rules.
fn split_of(case: &mut Case<'_>, rules: &mut Vec<Rule>) -> Option<Rule> {
    let first = last_of(case, rules)?;
    let second = last_of(case, rules)?;
    Some(Rule::Split(first, second))
}

// The rule that a word makes of the rules behind it.
fn rule_with(case: &mut Case<'_>, word: &str, rules: &mut Vec<Rule>) -> Option<Rule> {
    match word {
        "." => Some(Rule::Stop),
        "|" => split_of(case, rules),
        _ => {
            let rest = last_of(case, rules)?;
            item_of(case, word, rest)
        }
    }
}

/// The rule of the text that comes next.
pub(crate) fn rule_of(case: &mut Case<'_>) -> Option<Rule> {
    let mut rules = Vec::new(case.alloc());
    for word in case.rest().rsplit(' ') {
        match rule_with(case, word, &mut rules) {
            Some(rule) => case.add(&mut rules, rule),
            None => case.malformed("a rule ends too early"),
        }
    }
    rules.pop()
}

fn put_lin(case: &mut Case<'_>, lin: &Lin) {
    for c in lin.coefficients() {
        case.show(c);
        case.put(",");
    }
    case.show(&lin.constant());
}

fn put_call(case: &mut Case<'_>, node: u32, args: &[Lin]) {
    case.put("c");
    case.show(&node);
    case.put(":");
    let mut between = "";
    for lin in args {
        case.put(between);
        put_lin(case, lin);
        between = "/";
    }
}

/// An item in text.
pub(crate) fn put_item(case: &mut Case<'_>, item: &Item) {
    match item {
        Item::Assume(row) => {
            case.put("a");
            put_lin(case, &row.lin);
        }
        Item::Call(node, args) => put_call(case, *node, args.as_slice()),
        Item::Fresh(v) => {
            case.put("f");
            case.show(v);
        }
        Item::Spend(n) => {
            case.put("s");
            case.show(n);
        }
    }
}
