use class_pool::Target;

/// What a node stands for: a method, or a place in its code.
#[derive(Drop)]
pub struct NodeName {
    pub target: Target,
    /// The place where the node's code begins. The node of a whole method has none.
    pub pc: Option<u32>,
}
