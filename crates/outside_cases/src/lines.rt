//! What is appended to a line of a report: parts, with ` | ` between each two.

use case_texts::Case;
use case_texts::texts::{bytes_of, put_text};
use class_pool::{Target, Text};
use text_out::Line;

/// The name that hexadecimal digits are.
fn name_of(case: &mut Case<'_>, digits: &str) -> Option<Text> {
    let bytes = bytes_of(case, digits);
    let name = Text::from_slice(case.alloc(), bytes.as_slice());
    case.made(name)
}

/// A target of three names, with a `,` between each two.
fn target_of(case: &mut Case<'_>) -> Option<Target> {
    let (class, method, desc) = (case.until(","), case.until(","), case.rest());
    Some(Target {
        class: name_of(case, class)?,
        method: name_of(case, method)?,
        desc: name_of(case, desc)?,
    })
}

fn append_name(case: &mut Case<'_>, line: &mut Line) {
    let digits = case.rest();
    if let Some(name) = name_of(case, digits) {
        let appended = line.name(&name);
        case.keep(appended);
    }
}

fn append_target(case: &mut Case<'_>, line: &mut Line) {
    if let Some(target) = target_of(case) {
        let appended = line.target(&target);
        case.keep(appended);
    }
}

/// Appends a part: `push TEXT`, `number N`, `natural N`, `name BYTES` or `target BYTES,BYTES,BYTES`.
fn append(case: &mut Case<'_>, line: &mut Line) {
    let appended = match case.word() {
        "name" => return append_name(case, line),
        "natural" => line.natural(case.number()),
        "number" => line.number(case.number()),
        "push" => line.push(case.rest()),
        _ => return append_target(case, line),
    };
    case.keep(appended);
}

pub fn answer(case: &mut Case<'_>) {
    let mut line = Line::new(case.alloc());
    for part in case.rest().split('|') {
        case.turn_to(part.trim());
        append(case, &mut line);
    }
    put_text(case, line.bytes());
}
