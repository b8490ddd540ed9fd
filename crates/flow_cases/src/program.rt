ghost use Rattle.std.specs.Prelude.{◌≡◌, ◌<◌, ◌≤◌, ◌^◌, All, length, IfSome, slice_get, Some, IsTrue, ◌↔◌};
ghost use Rattle.flow_cases.specs.Marking.{IsEdge};

use crate::edge::Edge;
use crate::slots::Slots;

/// How many slots a point has at most.
pub const MOST_SLOTS: usize = 64;

/// Points with the slots that are marked in the beginning, and edges.
#[derive(Drop)]
pub struct Program {
    pub starts: Vec<Slots>,
    pub edges: Vec<Edge>,
    pub ghost few_points: { length starts.items < 2 ^ 32 },
    pub ghost few_edges: { length edges.items < 2 ^ 32 },
    pub ghost few_slots: { All (λ start. length start ≤ 64) starts.items },
    pub ghost within: { All (λ edge. IsEdge (length starts.items) edge) edges.items },
}

/// Whether an edge is one between so many points.
fn is_edge(points: usize, edge: &Edge) -> bool
    ensures { IsTrue result ↔ IsEdge points edge.now }
{
    let has_also = match edge.also {
        Some(point) => (point as usize) < points,
        None => true,
    };
    (edge.source as usize) < points && has_also && (edge.goal as usize) < points
}

impl Program {
    /// The program, where it keeps the limits and its edges are between its points.
    pub fn new(starts: Vec<Slots>, edges: Vec<Edge>) -> Option<Self> {
        let points = starts.len();
        if points > u32::MAX as usize || edges.len() > u32::MAX as usize {
            return None;
        }
        if !starts
            .iter()
            .all(|start| start.as_slice().len() <= MOST_SLOTS)
        {
            return None;
        }
        if !edges.iter().all(|edge| is_edge(points, edge)) {
            return None;
        }
        Some(Program { starts, edges })
    }

    /// How many edges there are.
    pub fn edges(&self) -> u32
        ensures { result ≡ length self.now.edges.items }
    {
        self.edges.len() as u32
    }

    /// The edge of this number.
    pub fn edge(&self, edge: u32) -> &Edge
        requires { edge < length self.now.edges.items }
        ensures { slice_get self.now.edges.items edge ≡ Some result.now }
    {
        &self.edges[edge as usize]
    }

    /// What begins at a point.
    pub fn start(&self, point: u32) -> &Slots
        requires { point < length self.now.starts.items }
        ensures { slice_get self.now.starts.items point ≡ Some result.now }
    {
        &self.starts[point as usize]
    }

    /// How many points there are.
    pub fn points(&self) -> u32
        ensures { result ≡ length self.now.starts.items }
    {
        self.starts.len() as u32
    }
}
