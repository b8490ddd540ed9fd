ghost use Rattle.std.specs.Prelude.{◌≡◌, ◌<◌, ◌≤◌, ◌+◌, ◌⊎◌, ◌↔◌, ◌∷◌, [], ℕ, All, Contains, length, IfNone, IfSome, OnOk};

use std::alloc::{AllocError, Global};
use std::collections::BTreeSet;
use std::marker::Model;

/// Nodes that are ready, in rising order.
#[derive(Drop)]
pub(crate) struct Ready {
    nodes: BTreeSet<u32>,
}

impl Model for Ready {
    ghost use Rattle.std.specs.Prelude.{List, ℕ};

    ghost Value = { List ℕ };

    ghost view = { λ ready. ready.nodes.keys };
}

impl Ready {
    /// No node.
    pub(crate) fn new(alloc: Global) -> Self
        ensures { result ≡ [] }
    {
        Ready {
            nodes: BTreeSet::new(alloc),
        }
    }

    /// Adds a node.
    pub(crate) fn add(&mut self, node: u32) -> Result<(), AllocError>
        ensures added { OnOk result ((x : ℕ) → Contains self.new x ↔ (Contains self.old x ⊎ (x ≡ node))) }
        ensures length { OnOk result (length self.new ≤ length self.old + 1) }
    {
        self.nodes.insert(node)?;
        Ok(())
    }

    /// Takes the lowest node out.
    pub(crate) fn take_lowest(&mut self) -> Option<u32>
        ensures none { IfNone result (self.old ≡ []) }
        ensures some { IfSome result (λ v. self.old ≡ v ∷ self.new) }
        ensures lowest { IfSome result (λ v. All (λ x. v < x) self.new) }
    {
        self.nodes.pop_first()
    }
}
