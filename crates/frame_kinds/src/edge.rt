use op_table::acts::Action;

/// A way through a method's code from an instruction to the one that can come next, by the places where they begin.
#[derive(Clone, Copy)]
pub struct Edge {
    pub from: u32,
    /// What the instruction does that it leads from.
    pub action: Action,
    pub to: u32,
}
