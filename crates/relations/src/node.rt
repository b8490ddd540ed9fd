use crate::name::NodeName;
use lin_rows::Sequence;
use rule_terms::Rule;

/// A node: its name, a mark for each of its sizes that is a length, and its rules.
#[derive(Drop)]
pub struct Node {
    pub name: NodeName,
    pub lengths: Sequence<bool>,
    pub rules: Sequence<Rule>,
}
