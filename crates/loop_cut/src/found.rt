ghost use Rattle.std.specs.Prelude.{◌≡◌};
ghost use Rattle.loop_cut.specs.declared.found.CutFault.TheVariants as faults;
ghost use Rattle.loop_cut.specs.CodeLoops.{fault_of};

use class_pool::Sequence;
use graph_core::Graph;
use graph_core::loops::NestFault;
use graph_loops::NestedLoops;
use std::alloc::{AllocError, AllocFailed};

/// A loop of a method's code. Blocks go by the places of the code at which they begin.
#[derive(Drop)]
pub struct CodeLoop {
    /// The block at which the loop is entered.
    pub entry: u32,
    /// The blocks that it holds, in rising order.
    pub blocks: Sequence<u32>,
    /// The blocks outside that it goes on to, in rising order.
    pub exits: Sequence<u32>,
    /// The locals that its instructions store to, in rising order: both words of a long.
    pub changed: Sequence<u32>,
    /// The least height that the operand stack has in it, in words, inside instructions too, after what they pop.
    pub least_height: u32,
}

/// The loops of a method's code.
#[derive(Drop)]
pub struct Loops {
    /// The graph of the method's blocks. Its nodes are the places of the code.
    pub graph: Graph,
    /// How the loops lie in one another: the innermost loop around each block, and the parent of each loop.
    pub nested: NestedLoops,
    /// The loops, in the order of their entries.
    pub loops: Sequence<CodeLoop>,
    /// The blocks at which nodes begin, in rising order: the method's start, the entries of loops, and the blocks that
    /// are come to from two points of the region around them.
    pub heads: Sequence<u32>,
}

/// Why a method's code has no such loops.
#[derive(Clone, Copy, Debug, PartialEq, Eq)]
pub enum CutFault {
    /// The loop that is entered at `a` is also entered at `b`.
    Irreducible { a: u32, b: u32 },
    /// Memory ran out.
    Memory,
}

impl From<NestFault> for CutFault {
    ghost from_gives = { λ fault cut. cut ≡ fault_of fault };

    fn from(fault: NestFault) -> Self {
        match fault {
            NestFault::TwoEntries { a, b } => CutFault::Irreducible { a, b },
            NestFault::Memory => CutFault::Memory,
        }
    }
}

impl From<AllocError> for CutFault {
    ghost from_gives = { λ _ fault. fault ≡ faults.Memory };

    fn from(_error: AllocError) -> Self {
        CutFault::Memory
    }
}

impl<T: Drop> From<AllocFailed<T>> for CutFault {
    ghost from_gives = { λ _ fault. fault ≡ faults.Memory };

    fn from(_error: AllocFailed<T>) -> Self {
        CutFault::Memory
    }
}
