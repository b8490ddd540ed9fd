//! Expressions in the texts of cases: their coefficients, and their constants behind them.

use case_texts::Case;
use lin_rows::Lin;

/// The expression of these numbers.
fn lin_of_numbers(case: &mut Case<'_>, mut numbers: Vec<i128>) -> Option<Lin> {
    let constant = numbers.pop()?;
    if numbers.len() > u32::MAX as usize {
        return None;
    }
    let lin = Lin::new(case.alloc(), numbers.as_slice(), constant);
    case.made(lin)
}

/// The expression of a text whose numbers are parted so.
pub fn lin_of(case: &mut Case<'_>, text: &str, parting: char) -> Option<Lin> {
    let mut numbers = Vec::new(case.alloc());
    for word in text.trim().split(parting) {
        let number = case.parsed(word);
        case.add(&mut numbers, number);
    }
    lin_of_numbers(case, numbers)
}
