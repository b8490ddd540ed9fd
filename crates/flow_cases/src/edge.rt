/// A way by which a slot is marked: where each slot that it names is marked, of the fact at the edge's source and of
/// the one at its second point.
#[derive(Clone, Copy)]
pub struct Way {
    /// The slot that it marks.
    pub to: u32,
    pub from: Option<u32>,
    pub with: Option<u32>,
}

/// An edge, and the ways by which it marks its goal's slots.
#[derive(Drop)]
pub struct Edge {
    pub source: u32,
    pub also: Option<u32>,
    pub goal: u32,
    pub ways: Vec<Way>,
}
