ghost use Rattle.std.specs.Prelude.{◌≡◌, ℕ, ◌+◌, ◌*◌, ◌<◌, ◌≤◌, List, [], ◌∷◌, length, Some, IfOk, OnOk, Option, option_map, slice_get, unwrap_or};
ghost use Rattle.std.specs.Option.{option_copied};
ghost use Rattle.fix_engine.specs.Agenda.{Grows};
ghost use Rattle.fix_engine.specs.Readers.{AreReaders, AllWait, readers_of};
ghost use Rattle.fix_engine.specs.Solution.{at_points, carried, IsLeast};
ghost use Rattle.fix_engine.specs.Derived.{IsDerived};
ghost use Rattle.fix_engine.specs.Search.{IsOnTheWay, MetOrWaits, EndsWithin};

use crate::agenda::Agenda;
use crate::flow::Flow;
use crate::lattice::Lattice;
use crate::readers::Readers;
use crate::solution::Solution;
use std::alloc::{AllocError, Global};

/// A search for the least solution.
#[derive(Drop)]
struct Search<Fact> {
    /// The fact at each point so far.
    facts: Vec<Fact>,
    agenda: Agenda,
}

/// The starts, by point.
fn starts<F: Flow>(alloc: Global, flow: &F) -> Result<Vec<F::Fact>, AllocError>
    ensures count { IfOk result (λ facts. length facts.items ≡ (F.problem flow.now).points) }
    ensures starts { IfOk result
        (λ facts. (k : ℕ) → k < (F.problem flow.now).points
        → slice_get facts.items k ≡ Some ((F.problem flow.now).start k)) }
{
    let mut facts = Vec::new(alloc);
    for point in 0..flow.points() {
        facts.push(flow.start(alloc, point)?)?;
    }
    Ok(facts)
}

/// Where a search begins: at the starts, with each edge to be visited.
fn begin<F: Flow>(alloc: Global, flow: &F) -> Result<Search<F::Fact>, AllocError>
    ensures way { IfOk result (λ search. IsOnTheWay F.Fact.order (F.problem flow.now) search.facts.items) }
    ensures edges { IfOk result (λ search. search.agenda.edges ≡ (F.problem flow.now).edges) }
    ensures met { IfOk result
        (λ search. MetOrWaits F.Fact.order (F.problem flow.now) search.facts.items search.agenda.list) }
    // Each edge reads at most two facts, each of which rises no more often than the height says.
    ensures ends { IfOk result
        (λ search. (rows : List (List ℕ)) → AreReaders (F.problem flow.now) (F.problem flow.now).edges rows
        → EndsWithin F.Fact.order (F.problem flow.now) rows search.facts.items search.agenda.list
        (2 * (F.problem flow.now).edges * (F.problem flow.now).height)) }
{
    let facts = starts(alloc, flow)?;
    let agenda = Agenda::all(alloc, flow.edges())?;
    Ok(Search { facts, agenda })
}

/// The fact at a second point, if there is one.
fn second<'a, Fact>(facts: &'a [Fact], point: Option<u32>) -> Option<&'a Fact>
    requires { (q : ℕ) → point ≡ Some q → q < length facts.now }
    ensures { (d : ℕ → Fact)
        → option_copied result ≡ option_map (λ q. unwrap_or (slice_get facts.entry.now q) (d q)) point }
{
    match point {
        Some(point) => Some(&facts[point as usize]),
        None => None,
    }
}

/// What an edge makes of the facts so far.
fn carry<F: Flow>(
    alloc: Global,
    flow: &F,
    facts: &[F::Fact],
    edge: u32,
) -> Result<F::Fact, AllocError>
    requires edge { edge < (F.problem flow.now).edges }
    requires count { length facts.now ≡ (F.problem flow.now).points }
    requires facts { (k : ℕ) → k < (F.problem flow.now).points
        → (F.problem flow.now).IsFact k (at_points (F.problem flow.now) facts.now k) }
    ensures { IfOk result
        (λ made. made ≡ carried (F.problem flow.now) (at_points (F.problem flow.now) facts.now) edge) }
{
    let also = second(facts, flow.also(edge));
    flow.transfer(alloc, edge, &facts[flow.source(edge) as usize], also)
}

/// Adds each edge that reads the fact at an edge's goal to what is to be visited.
fn wake<F: Flow>(
    flow: &F,
    readers: &Readers,
    agenda: &mut Agenda,
    edge: u32,
) -> Result<(), AllocError>
    requires edge { edge < (F.problem flow.now).edges }
    requires readers { AreReaders (F.problem flow.now) (F.problem flow.now).edges readers.now }
    requires edges { agenda.old.edges ≡ (F.problem flow.now).edges }
    ensures grows { OnOk result
        (Grows agenda.old agenda.new (length (readers_of readers.now ((F.problem flow.now).goal edge)))) }
    ensures woken { OnOk result
        (AllWait (F.problem flow.now) ((F.problem flow.now).goal edge) agenda.new.list) }
{
    agenda.add_all(readers.of(flow.goal(edge)))?;
    Ok(())
}

/// Visits an edge: what it makes is joined to the fact at its goal, and where this fact rose, each
/// edge that reads it is to be visited.
fn visit<F: Flow>(
    alloc: Global,
    flow: &F,
    readers: &Readers,
    search: &mut Search<F::Fact>,
    edge: u32,
) -> Result<(), AllocError>
    requires edge { edge < (F.problem flow.now).edges }
    requires readers { AreReaders (F.problem flow.now) (F.problem flow.now).edges readers.now }
    requires way { IsOnTheWay F.Fact.order (F.problem flow.now) search.old.facts.items }
    requires edges { search.old.agenda.edges ≡ (F.problem flow.now).edges }
    requires met { MetOrWaits F.Fact.order (F.problem flow.now) search.old.facts.items (edge ∷ search.old.agenda.list) }
    ensures way { OnOk result (IsOnTheWay F.Fact.order (F.problem flow.now) search.new.facts.items) }
    ensures edges { OnOk result (search.new.agenda.edges ≡ (F.problem flow.now).edges) }
    ensures met { OnOk result
        (MetOrWaits F.Fact.order (F.problem flow.now) search.new.facts.items search.new.agenda.list) }
    ensures ends { OnOk result
        ((n : ℕ)
        → EndsWithin F.Fact.order (F.problem flow.now) readers.now search.old.facts.items search.old.agenda.list n
        → EndsWithin F.Fact.order (F.problem flow.now) readers.now search.new.facts.items search.new.agenda.list n) }
{
    let made = carry(alloc, flow, &search.facts, edge)?;
    if !search.facts[flow.goal(edge) as usize].join(&made)? {
        return Ok(());
    }
    wake(flow, readers, &mut search.agenda, edge)?;
    Ok(())
}

/// Visits edges until none waits.
fn settle<F: Flow>(
    alloc: Global,
    flow: &F,
    readers: &Readers,
    search: &mut Search<F::Fact>,
) -> Result<(), AllocError>
    requires readers { AreReaders (F.problem flow.now) (F.problem flow.now).edges readers.now }
    requires way { IsOnTheWay F.Fact.order (F.problem flow.now) search.old.facts.items }
    requires edges { search.old.agenda.edges ≡ (F.problem flow.now).edges }
    requires met { MetOrWaits F.Fact.order (F.problem flow.now) search.old.facts.items search.old.agenda.list }
    requires ends { EndsWithin F.Fact.order (F.problem flow.now) readers.now search.old.facts.items search.old.agenda.list
        (2 * (F.problem flow.now).edges * (F.problem flow.now).height) }
    ensures way { OnOk result (IsOnTheWay F.Fact.order (F.problem flow.now) search.new.facts.items) }
    ensures met { OnOk result (MetOrWaits F.Fact.order (F.problem flow.now) search.new.facts.items []) }
{
    // Only the proof that the search ends asks how many visits are left.
    let mut visits = 2 * flow.edges() as u128 * flow.height() as u128;
    while let Some(edge) = search.agenda.next() {
        visits -= 1;
        visit(alloc, flow, readers, search, edge)?;
    }
    Ok(())
}

/// The least solution of a flow, each of whose facts is derived. `Err` is want of memory.
pub fn solve<F: Flow>(alloc: Global, flow: &F) -> Result<Solution<F::Fact>, AllocError>
    ensures count { IfOk result (λ solution. length solution ≡ (F.problem flow.now).points) }
    ensures least { IfOk result
        (λ solution. IsLeast F.Fact.order (F.problem flow.now) (at_points (F.problem flow.now) solution)) }
    ensures derived { IfOk result
        (λ solution. (k : ℕ) → k < (F.problem flow.now).points
        → IsDerived F.Fact.order (F.problem flow.now) k (at_points (F.problem flow.now) solution k)) }
{
    let readers = Readers::new(alloc, flow)?;
    let mut search = begin(alloc, flow)?;
    settle(alloc, flow, &readers, &mut search)?;
    let Search { facts, .. } = search;
    Ok(Solution::of(facts))
}
