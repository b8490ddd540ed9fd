ghost use Rattle.std.specs.Prelude.{◌≡◌, ℕ, ◌+◌, ◌-◌, ◌<◌, ◌≤◌, ◌^◌, Some, length, IfOk, slice_get, slice_index, slice_set};
ghost use Rattle.fix_engine.specs.Readers.{AreReaders};
ghost use Rattle.fix_engine.specs.Counting.{AreCounts, ArePlaced, sum_below};

use crate::flow::Flow;
use std::alloc::{AllocError, Global};
use std::marker::Model;

/// The edges that read each point's fact: a row of edges for each point. The rows stand one behind
/// the other in one list.
#[derive(Drop)]
pub struct Readers {
    /// Where each row begins, which is where the one before it ends, and where the last one ends.
    offsets: Vec<usize>,
    edges: Vec<u32>,
}

impl Model for Readers {
    ghost use Rattle.std.specs.Prelude.{List, ℕ};
    ghost use Rattle.fix_engine.specs.Readers.{rows_of, AreOffsets};

    ghost Value = { List (List ℕ) };

    ghost view = { λ r. rows_of r.offsets.items r.edges.items };

    ghost invariant = { λ r. AreOffsets r.offsets.items r.edges.items };
}

impl Readers {
    /// The edges that read each point's fact, by point.
    pub fn new<F: Flow>(alloc: Global, flow: &F) -> Result<Self, AllocError>
        ensures { IfOk result
            (λ rows. AreReaders (F.problem flow.now) (F.problem flow.now).edges rows) }
    {
        let count = flow.edges();
        let mut offsets = counts(alloc, flow)?;
        add_up(&mut offsets);
        let reads = offsets[flow.points() as usize];
        let mut edges = vec![in alloc; 0; reads]?;
        for edge in 0..count {
            put_edge(flow, edge, &mut offsets, &mut edges);
        }
        Ok(Readers { offsets, edges })
    }

    /// The edges that read the fact at a point, by number.
    pub fn of(&self, point: u32) -> &[u32]
        requires { point < length self.now }
        ensures { slice_get self.now point ≡ Some result.now }
    {
        let begin = self.offsets[point as usize];
        let end = self.offsets[point as usize + 1];
        &self.edges[begin..end]
    }
}

/// Counts an edge at each point whose fact it reads.
fn count_reads<F: Flow>(flow: &F, edge: u32, counts: &mut [usize])
    requires edge { edge < (F.problem flow.now).edges }
    requires counts { AreCounts (F.problem flow.now) edge counts.old }
    ensures { AreCounts (F.problem flow.now) (edge + 1) counts.new }
{
    counts[flow.source(edge) as usize] += 1;
    if let Some(point) = flow.also(edge) {
        counts[point as usize] += 1;
    }
}

/// How many edges read each point's fact, by point, and a number more.
fn counts<F: Flow>(alloc: Global, flow: &F) -> Result<Vec<usize>, AllocError>
    ensures { IfOk result
        (λ counts. AreCounts (F.problem flow.now) (F.problem flow.now).edges counts.items) }
{
    let mut counts = vec![in alloc; 0; flow.points() as usize + 1]?;
    for edge in 0..flow.edges() {
        count_reads(flow, edge, &mut counts);
    }
    Ok(counts)
}

/// Adds to each number all those before it.
fn add_up(numbers: &mut [usize])
    requires { sum_below (λ k. slice_index numbers.old k) (length numbers.old) < 2 ^ 64 }
    ensures { (k : ℕ) → k < length numbers.old
        → slice_index numbers.new k ≡ sum_below (λ j. slice_index numbers.old j) (k + 1) }
{
    let mut sum = 0;
    for number in numbers.iter_mut() {
        sum += *number;
        *number = sum;
    }
}

/// Puts an edge before those that stand in a point's row.
fn put(offsets: &mut [usize], edges: &mut [u32], point: u32, edge: u32)
    requires point { point < length offsets.old }
    requires above { 0 < slice_index offsets.old point }
    requires room { slice_index offsets.old point ≤ length edges.old }
    ensures offsets { offsets.new ≡ slice_set offsets.old point (slice_index offsets.old point - 1) }
    ensures edges { edges.new ≡ slice_set edges.old (slice_index offsets.old point - 1) edge }
{
    let place = offsets[point as usize] - 1;
    offsets[point as usize] = place;
    edges[place] = edge;
}

/// Puts an edge into the row of each point whose fact it reads.
fn put_edge<F: Flow>(flow: &F, edge: u32, offsets: &mut [usize], edges: &mut [u32])
    requires edge { edge < (F.problem flow.now).edges }
    requires placed { ArePlaced (F.problem flow.now) edge offsets.old edges.old }
    ensures { ArePlaced (F.problem flow.now) (edge + 1) offsets.new edges.new }
{
    put(offsets, edges, flow.source(edge), edge);
    if let Some(point) = flow.also(edge) {
        put(offsets, edges, point, edge);
    }
}
