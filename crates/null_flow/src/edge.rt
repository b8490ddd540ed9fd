use op_table::acts::Action;

/// How frames come along an edge.
#[derive(Clone, Copy)]
pub enum Way {
    /// Behind an instruction that does this.
    Behind(Action),
    /// A method is called, with or without a receiver.
    Enters(bool),
    /// An exception is caught.
    Caught,
}

/// A way from an instruction to a place that can come next, by the numbers of the points.
#[derive(Clone, Copy)]
pub struct NullEdge {
    pub from: u32,
    pub to: u32,
    /// How many locals the method has that the edge leads from.
    pub locals: u16,
    /// How many words the instruction pops.
    pub pops: usize,
    pub way: Way,
}
