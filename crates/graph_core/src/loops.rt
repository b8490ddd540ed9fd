ghost use Rattle.std.specs.Prelude.{◌≡◌};
ghost use Rattle.graph_core.specs.declared.loops.NestFault.TheVariants as faults;

use std::alloc::{AllocError, AllocFailed};
use std::marker::Model;

/// A loop of a graph.
#[derive(Drop)]
pub struct Loop {
    pub(crate) entry: u32,
    pub(crate) nodes: Vec<u32>,
}

impl Model for Loop {
    ghost use Rattle.graph_core.specs.Nests.{Entered};

    ghost Value = { Entered };

    ghost view = { λ l. record { entry = l.entry; nodes = l.nodes.items } };
}

impl Loop {
    /// The loop with this entry and these nodes.
    pub fn new(entry: u32, nodes: Vec<u32>) -> Self
        ensures { result ≡ record { entry = entry; nodes = nodes.items } }
    {
        Loop { entry, nodes }
    }

    /// The node at which the loop is entered.
    pub fn entry(&self) -> u32
        ensures { result ≡ self.now.entry }
    {
        self.entry
    }

    /// The loop's nodes, in rising order.
    pub fn nodes(&self) -> &[u32]
        ensures { result.now ≡ self.now.nodes }
    {
        self.nodes.as_slice()
    }
}

/// The loops of a graph, of which each is entered at one node alone.
#[derive(Drop)]
pub struct Nest {
    pub(crate) loops: Vec<Loop>,
}

impl Model for Nest {
    ghost use Rattle.std.specs.Prelude.{List};
    ghost use Rattle.graph_core.specs.Nests.{Entered};

    ghost Value = { List Entered };

    ghost view = { λ nest. nest.loops.items };
}

impl Nest {
    /// These loops.
    pub fn new(loops: Vec<Loop>) -> Self
        ensures { result ≡ loops.items }
    {
        Nest { loops }
    }

    /// The loops, in the order of their entries.
    pub fn loops(&self) -> &[Loop]
        ensures { result.now ≡ self.now }
    {
        self.loops.as_slice()
    }
}

/// Why a graph has no nest of loops.
#[derive(Clone, Copy, Debug, PartialEq, Eq)]
pub enum NestFault {
    /// The loop with the entry `a` is also entered at `b`.
    TwoEntries { a: u32, b: u32 },
    /// Memory ran out.
    Memory,
}

impl From<AllocError> for NestFault {
    ghost from_gives = { λ _ fault. fault ≡ faults.Memory };

    fn from(_error: AllocError) -> Self {
        NestFault::Memory
    }
}

impl<T: Drop> From<AllocFailed<T>> for NestFault {
    ghost from_gives = { λ _ fault. fault ≡ faults.Memory };

    fn from(_error: AllocFailed<T>) -> Self {
        NestFault::Memory
    }
}
