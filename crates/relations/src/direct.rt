use crate::name::NodeName;
use lin_rows::Sequence;
use rule_terms::RulePath;

/// A node that is called: its number and its name.
#[derive(Drop)]
pub struct Called {
    pub node: u32,
    pub name: NodeName,
}

/// A base relation: a node with its rules, way by way, and the nodes that they call, by number.
#[derive(Drop)]
pub struct DirectNode {
    pub node: u32,
    pub name: NodeName,
    pub lengths: Sequence<bool>,
    pub rules: Sequence<RulePath>,
    pub called: Sequence<Called>,
}
