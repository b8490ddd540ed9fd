//! The flow of what is known of null.
ghost use Rattle.std.specs.Prelude.{◌≡◌, ◌<◌, ◌^◌, All, List, ℕ, Contains, length, slice_index_or, IfOk};
ghost use Rattle.null_flow.specs.declared.edge.NullEdge.{NullEdge};
ghost use Rattle.null_flow.specs.Flow.{edge_at, largest, size_at, IsBetween};

use crate::edge::NullEdge;
use crate::effects::{fact_along, known};
use crate::fact::NullFact;
use fix_engine::Flow;
use std::alloc::{AllocError, Global};

/// A flow over places of the code of several methods, of which the first is where the method starts that is asked for.
#[derive(Drop)]
pub struct NullFlow {
    /// Whether the method that is asked for has a receiver.
    pub receiver: bool,
    /// How many slots frames have at each place.
    pub sizes: Vec<u32>,
    pub edges: Vec<NullEdge>,
    ghost few: { length edges.items < 2 ^ 32 },
    ghost small: { length sizes.items < 2 ^ 32 },
    ghost within: { (edge : NullEdge) → Contains edges.items edge → IsBetween (length sizes.items) edge },
}

// The greatest of the numbers.
fn largest(sizes: &[u32]) -> u32
    ensures { result ≡ largest sizes.now }
{
    let mut most = 0;
    for size in sizes {
        most = most.max(*size);
    }
    most
}

impl NullFlow {
    /// The flow over these places and edges. `Err` are 2^32 places or edges, and more.
    pub fn new(receiver: bool, sizes: Vec<u32>, edges: Vec<NullEdge>) -> Result<Self, AllocError>
        requires { (edge : NullEdge) → Contains edges.items edge → IsBetween (length sizes.items) edge }
        ensures receiver { IfOk result (λ flow. flow.receiver ≡ receiver) }
        ensures sizes { IfOk result (λ flow. flow.sizes.items ≡ sizes.items) }
        ensures edges { IfOk result (λ flow. flow.edges.items ≡ edges.items) }
    {
        if sizes.len() > u32::MAX as usize || edges.len() > u32::MAX as usize {
            return Err(AllocError);
        }
        Ok(NullFlow {
            receiver,
            sizes,
            edges,
        })
    }

    /// The edge of this number.
    fn edge(&self, edge: u32) -> NullEdge
        requires { edge < length self.now.edges.items }
        ensures { result ≡ edge_at self.now.edges.items edge }
    {
        self.edges[edge as usize]
    }
}

impl Flow for NullFlow {
    ghost use Rattle.null_flow.specs.Flow.{null_problem};
    ghost use Rattle.null_flow.specs.Lawful.{null_lawful};

    type Fact = NullFact;

    ghost problem = { λ flow. null_problem flow.receiver flow.sizes.items flow.edges.items };

    ghost lawful = { λ flow. null_lawful flow.receiver flow.sizes.items flow.edges.items flow.within };

    fn points(&self) -> u32 {
        self.sizes.len() as u32
    }

    fn edges(&self) -> u32 {
        self.edges.len() as u32
    }

    fn height(&self) -> u64 {
        u64::from(largest(self.sizes.as_slice())) + 2
    }

    fn source(&self, edge: u32) -> u32 {
        self.edge(edge).from
    }

    fn also(&self, _edge: u32) -> Option<u32> {
        None
    }

    fn goal(&self, edge: u32) -> u32 {
        self.edge(edge).to
    }

    fn start(&self, alloc: Global, point: u32) -> Result<NullFact, AllocError> {
        if point != 0 {
            return Ok(NullFact::Unreached);
        }
        let size = self.sizes[point as usize];
        if self.receiver {
            return known(alloc, size, &[true]);
        }
        known(alloc, size, &[])
    }

    fn transfer<'a>(
        &self,
        alloc: Global,
        edge: u32,
        fact: &'a NullFact,
        _also: Option<&'a NullFact>,
    ) -> Result<NullFact, AllocError> {
        let edge = self.edge(edge);
        fact_along(alloc, &edge, self.sizes[edge.to as usize], fact)
    }
}
