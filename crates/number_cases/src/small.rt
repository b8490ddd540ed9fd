//! Whether rows are small: rows and a goal, as `1 -1 0, 0 1 2 to 1 0 2`, and the multipliers that are answered, or none. Rows
//! that are none are `none`.

ghost use Rattle.std.specs.Prelude.{◌<◌, ◌^◌, length};

use crate::lins::lin_of;
use crate::rows::rows_of;
use case_texts::Case;
use lin_rows::{Mults, Row, Sequence};
use small_cert::small_entails;

/// The rows of a text, of which there are at most 1,000.
pub fn given_rows(case: &mut Case<'_>, text: &str) -> Sequence<Row>
    ensures { length result < 2 ^ 32 }
{
    let rows = if text == "none" {
        Sequence::new(case.alloc())
    } else {
        rows_of(case, text)
    };
    if rows.len() <= 1000 {
        return rows;
    }
    case.malformed("too many rows");
    Sequence::new(case.alloc())
}

/// Multipliers as row numbers with factors.
fn put_mults(case: &mut Case<'_>, m: &Mults) {
    case.put("by");
    for p in m.as_slice() {
        case.show_word(&p.0);
        case.put(":");
        case.show(&p.1.numerator());
        case.put("/");
        case.show(&p.1.denominator());
    }
}

fn put_answer(case: &mut Case<'_>, answer: Option<Mults>) {
    match answer {
        Some(m) => put_mults(case, &m),
        None => case.put("none"),
    }
}

pub fn answer(case: &mut Case<'_>) {
    let rows = case.until(" to ");
    let rows = given_rows(case, rows);
    let goal = case.rest();
    if let Some(lin) = lin_of(case, goal, ' ') {
        let entailed = small_entails(case.alloc(), rows.as_slice(), &Row { lin });
        if let Some(answer) = case.made(entailed) {
            put_answer(case, answer);
        }
    }
}
