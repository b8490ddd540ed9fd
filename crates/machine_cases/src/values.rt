//! Values of the machine in the texts of cases. A value is a word: `i5` an int, `l5` a long, `r5` a reference, `n` null,
//! and `p` the second word of a long.

use case_texts::Case;
use machine::Value;

/// The value that a word is.
pub fn value_of(case: &mut Case<'_>, word: &str) -> Value {
    let digits = word.get(1..).unwrap_or("");
    match word.as_bytes().first().copied().unwrap_or(b'?') {
        b'i' => Value::Int(case.parsed(digits)),
        b'l' => Value::Long(case.parsed(digits)),
        b'r' => Value::Ref(case.parsed(digits)),
        b'n' => Value::Null,
        b'p' => Value::Pad,
        _ => {
            case.malformed("no value");
            Value::Pad
        }
    }
}

/// The values that words are.
pub fn values_of(case: &mut Case<'_>, words: &str) -> Vec<Value> {
    let mut values = Vec::new(case.alloc());
    for word in words.split_whitespace() {
        let value = value_of(case, word);
        case.add(&mut values, value);
    }
    values
}

fn put_number(case: &mut Case<'_>, letter: &str, number: i64) {
    case.put(letter);
    case.show(&number);
}

/// Adds the word of a value to the answer.
pub fn put_value(case: &mut Case<'_>, value: Value) {
    match value {
        Value::Int(n) => put_number(case, "i", i64::from(n)),
        Value::Long(n) => put_number(case, "l", n),
        Value::Ref(n) => put_number(case, "r", i64::from(n)),
        Value::Null => case.put("n"),
        Value::Pad => case.put("p"),
    }
}

/// Adds the word of a value to the answer, and `none` where there is none.
pub fn put_value_or_none(case: &mut Case<'_>, value: Option<Value>) {
    match value {
        Some(value) => put_value(case, value),
        None => case.put("none"),
    }
}
