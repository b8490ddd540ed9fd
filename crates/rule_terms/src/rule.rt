use lin_rows::{Lin, Row, Sequence};

/// A rule as a tree of items, each with what stands behind it. What stands behind a split is one of
/// its two parts.
#[derive(Drop)]
pub enum Rule {
    Stop,
    Assume(Row, Box<Rule>),
    Spend(u64, Box<Rule>),
    Fresh(u32, Box<Rule>),
    Call(u32, Sequence<Lin>, Box<Rule>),
    Split(Box<Rule>, Box<Rule>),
}
