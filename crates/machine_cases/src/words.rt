//! Locals and stacks: `locals` with a size and the first words, or `stack` with its values, the lowest first; and
//! behind each `;` what is done with them. The answer has a word for each that answers something.

use crate::values::{put_value, put_value_or_none, value_of, values_of};
use case_texts::Case;
use machine::{Locals, Stack, Value};
use op_table::acts::Kind;

fn kind_of(word: &str) -> Kind {
    match word {
        "int" => Kind::Int,
        "long" => Kind::Long,
        _ => Kind::Reference,
    }
}

/// The value that the next word is.
fn next_value(case: &mut Case<'_>) -> Value {
    let word = case.word();
    value_of(case, word)
}

/// Stores a value where it can be stored, and tells whether it can.
fn store(case: &mut Case<'_>, locals: &mut Locals) {
    let local = case.number();
    let value = next_value(case);
    if locals.can_store(local, value) {
        locals.store(local, value);
        case.put("yes");
    } else {
        case.put("no");
    }
}

/// Puts a word into a local that there is.
fn set(case: &mut Case<'_>, locals: &mut Locals) {
    let local = case.number();
    let value = next_value(case);
    if local < locals.len() {
        locals.set(local, value);
        case.put("yes");
    } else {
        case.put("no");
    }
}

fn load(case: &mut Case<'_>, locals: &Locals) {
    let kind = kind_of(case.word());
    let value = locals.load(kind, case.number());
    put_value_or_none(case, value);
}

/// What one action on locals answers.
fn on_locals(case: &mut Case<'_>, locals: &mut Locals, what: &str) {
    match what {
        "len" => case.show(&locals.len()),
        "get" => {
            let value = locals.get(case.number());
            put_value_or_none(case, value);
        }
        "load" => load(case, locals),
        "set" => set(case, locals),
        _ => store(case, locals),
    }
}

/// The words of so many values on top, from the lowest up.
fn front(case: &mut Case<'_>, stack: &Stack<Value>) {
    let count = case.number();
    if count <= stack.len() {
        for value in stack.front(count) {
            put_value(case, *value);
        }
    }
}

/// Puts values in the place of so many on top.
fn replace(case: &mut Case<'_>, stack: &mut Stack<Value>) {
    let count = case.number();
    let values = case.rest();
    let values = values_of(case, values);
    if count > stack.len() {
        case.put("no");
        return;
    }
    let replaced = stack.replace(count, &values);
    case.keep(replaced);
    case.put("yes");
}

/// Takes so many values off.
fn cut(case: &mut Case<'_>, stack: &mut Stack<Value>) {
    let count = case.number();
    if count > stack.len() {
        case.put("no");
        return;
    }
    stack.cut(count);
    case.show(&stack.len());
}

/// Changes the top with a value, and answers what it was.
fn swap(case: &mut Case<'_>, stack: &mut Stack<Value>) {
    let mut value = next_value(case);
    if stack.len() == 0 {
        case.put("no");
        return;
    }
    stack.swap_top(&mut value);
    put_value(case, value);
}

fn push(case: &mut Case<'_>, stack: &mut Stack<Value>) {
    let value = next_value(case);
    let pushed = stack.push(value);
    case.keep(pushed);
    case.show(&stack.len());
}

/// What one action on a stack answers, which changes what lies deeper.
fn on_deep(case: &mut Case<'_>, stack: &mut Stack<Value>, what: &str) {
    match what {
        "cut" => cut(case, stack),
        "front" => front(case, stack),
        "get" => {
            let value = stack.get(case.number());
            put_value_or_none(case, value);
        }
        "replace" => replace(case, stack),
        _ => case.malformed("no such action"),
    }
}

/// What one action on a stack answers.
fn on_stack(case: &mut Case<'_>, stack: &mut Stack<Value>, what: &str) {
    match what {
        "len" => case.show(&stack.len()),
        "pop" => put_value_or_none(case, stack.pop()),
        "push" => push(case, stack),
        "swap" => swap(case, stack),
        "top" => put_value_or_none(case, stack.top().copied()),
        _ => on_deep(case, stack, what),
    }
}

/// The locals of a size with the first words that come next.
fn locals_of(case: &mut Case<'_>) -> Option<Locals> {
    let size = case.number();
    let values = case.rest();
    let values = values_of(case, values);
    if values.len() > size {
        case.malformed("more words than locals");
        return None;
    }
    let locals = Locals::of_words(values, size);
    case.made(locals)
}

fn tell_locals<'a>(case: &mut Case<'a>, actions: &'a str) {
    let Some(mut locals) = locals_of(case) else {
        return;
    };
    for action in actions.split("; ") {
        case.turn_to(action);
        case.part(" ");
        let what = case.word();
        on_locals(case, &mut locals, what);
    }
}

/// The stack of the values that come next, the lowest first.
fn stack_of(case: &mut Case<'_>) -> Stack<Value> {
    let mut stack = Stack::new(case.alloc());
    for word in case.rest().split_whitespace() {
        let value = value_of(case, word);
        let pushed = stack.push(value);
        case.keep(pushed);
    }
    stack
}

fn tell_stack<'a>(case: &mut Case<'a>, actions: &'a str) {
    let mut stack = stack_of(case);
    for action in actions.split("; ") {
        case.turn_to(action);
        case.part(" ");
        let what = case.word();
        on_stack(case, &mut stack, what);
    }
}

pub fn answer(case: &mut Case<'_>) {
    let actions = case.behind("; ");
    match case.word() {
        "locals" => tell_locals(case, actions),
        _ => tell_stack(case, actions),
    }
}
