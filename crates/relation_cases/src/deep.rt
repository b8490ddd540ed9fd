//! Rules that are long and have many ends.

use rule_terms::Rule;
use std::alloc::{AllocError, Global};

/// So many spends of 1, and behind them so many ends, by splits inside each other's first or second part.
pub(crate) fn comb(
    alloc: Global,
    items: u32,
    ends: u32,
    is_first: bool,
) -> Result<Rule, AllocError> {
    let mut rule = Rule::Stop;
    for _ in 1..ends {
        rule = split(alloc, rule, is_first)?;
    }
    for _ in 0..items {
        rule = Rule::Spend(1, Box::new(alloc, rule)?);
    }
    Ok(rule)
}

// A split whose first or second part is this, and whose other part ends.
fn split(alloc: Global, rule: Rule, is_first: bool) -> Result<Rule, AllocError> {
    let end = Box::new(alloc, Rule::Stop)?;
    let part = Box::new(alloc, rule)?;
    if is_first {
        Ok(Rule::Split(part, end))
    } else {
        Ok(Rule::Split(end, part))
    }
}
