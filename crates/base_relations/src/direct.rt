ghost use Rattle.std.specs.Prelude.{◌≡◌, Some, None, MatchOption};
ghost use Rattle.base_relations.specs.Direct.{base_at};

use relations::DirectNode;
use std::marker::Model;

/// The base relations of the covers and the target, and the order in which they are worked through.
#[derive(Drop)]
pub struct Direct {
    pub(crate) nodes: Vec<Option<DirectNode>>,
    pub(crate) order: Vec<u32>,
}

impl Model for Direct {
    ghost use Rattle.base_relations.specs.Direct.{BaseRelations};

    ghost Value = { BaseRelations };

    ghost view = { λ direct. record { nodes = direct.nodes.items; order = direct.order.items } };
}

impl Direct {
    /// The base relation of a node, where it has one.
    pub fn node(&self, node: u32) -> Option<&DirectNode>
        ensures { MatchOption result (base_at self.now.nodes node ≡ None) (λ base. base_at self.now.nodes node ≡ Some base.now) }
    {
        self.nodes.get(node as usize)?.as_ref()
    }

    /// The nodes that have a base relation, callees first, and of those that are ready the lowest first.
    pub fn order(&self) -> &[u32]
        ensures { result.now ≡ self.now.order }
    {
        self.order.as_slice()
    }
}
