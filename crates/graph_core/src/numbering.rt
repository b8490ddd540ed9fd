ghost use Rattle.std.specs.Prelude.{◌≡◌, ◌<◌, length, slice_index};
ghost use Rattle.graph_core.specs.Numbers.{AreCounted};

use std::marker::Model;

/// The number of each node's component, of a graph whose nodes are numbered from 0.
#[derive(Drop)]
pub struct Components {
    pub(crate) numbers: Vec<u32>,
    pub(crate) count: u32,
}

impl Model for Components {
    ghost use Rattle.std.specs.Prelude.{List, ℕ};
    ghost use Rattle.graph_core.specs.Numbers.{AreCounted};

    ghost Value = { List ℕ };

    ghost view = { λ components. components.numbers.items };

    ghost invariant = { λ components. AreCounted components.numbers.items components.count };
}

impl Components {
    /// How many components there are.
    pub fn count(&self) -> u32
        ensures { AreCounted self.now result }
    {
        self.count
    }

    /// The number of a node's component.
    pub fn of(&self, node: u32) -> u32
        requires { node < length self.now }
        ensures { result ≡ slice_index self.now node }
    {
        self.numbers[node as usize]
    }

    /// The number of each node's component, by node.
    pub fn as_slice(&self) -> &[u32]
        ensures { result.now ≡ self.now }
    {
        self.numbers.as_slice()
    }
}
