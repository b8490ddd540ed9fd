ghost use Rattle.std.specs.Prelude.{◌≡◌, ◌<◌, IfOk};
ghost use Rattle.std.specs.Option.{option_copied};

use crate::lattice::Lattice;
use std::alloc::{AllocError, Global};

/// A data flow problem: points with facts, and edges that carry facts from point to point. Points and
/// edges are numbered from 0.
pub trait Flow {
    ghost use Rattle.fix_engine.specs.Problem.{Problem, Both};
    ghost use Rattle.fix_engine.specs.Lawful.{IsLawful};

    type Fact: Lattice + Drop;

    ghost problem: { Self → Problem Self.Fact };

    /// How many points there are.
    fn points(&self) -> u32
        ensures { result ≡ (problem self.now).points };

    /// How many edges there are.
    fn edges(&self) -> u32
        ensures { result ≡ (problem self.now).edges };

    /// How many facts a rising chain at one point has at most.
    fn height(&self) -> u64
        ensures { result ≡ (problem self.now).height };

    /// The point whose fact an edge carries on.
    fn source(&self, edge: u32) -> u32
        requires { edge < (problem self.now).edges }
        ensures { result ≡ (problem self.now).source edge };

    /// The second point that an edge depends on, as a callee's exit at a call.
    fn also(&self, edge: u32) -> Option<u32>
        requires { edge < (problem self.now).edges }
        ensures { result ≡ (problem self.now).also edge };

    /// The point that an edge leads to.
    fn goal(&self, edge: u32) -> u32
        requires { edge < (problem self.now).edges }
        ensures { result ≡ (problem self.now).goal edge };

    /// What holds at a point before any edge is followed. `Err` is want of memory.
    fn start(&self, alloc: Global, point: u32) -> Result<Self::Fact, AllocError>
        requires { point < (problem self.now).points }
        ensures { IfOk result (λ fact. fact ≡ (problem self.now).start point) };

    /// What an edge makes of the facts at its source and at its second point. `Err` is want of
    /// memory.
    fn transfer<'a>(
        &self,
        alloc: Global,
        edge: u32,
        fact: &'a Self::Fact,
        also: Option<&'a Self::Fact>,
    ) -> Result<Self::Fact, AllocError>
        requires edge { edge < (problem self.now).edges }
        requires fact { (problem self.now).IsFact ((problem self.now).source edge) fact.now }
        requires also { Both (problem self.now).IsFact ((problem self.now).also edge) (option_copied also) }
        ensures { IfOk result
            (λ made. made ≡ (problem self.now).transfer edge fact.now (option_copied also.entry)) };

    ghost lawful: { (flow : Self) → IsLawful Self.Fact.order (problem flow) };
}
