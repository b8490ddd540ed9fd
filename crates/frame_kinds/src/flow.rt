ghost use Rattle.std.specs.Prelude.{◌≡◌, ◌<◌, ◌≤◌, ◌^◌, ◌++◌, length, slice_get, unwrap_or, map, IfOk, OnOk};
ghost use Rattle.code_blocks.specs.Blocks.{AreWithin};
ghost use Rattle.frame_kinds.specs.Flow.{edges_from, edges_of, edge_at, nowhere, entry_of};

use crate::edge::Edge;
use class_reader::is_static;
use code_blocks::{Instruction, code_is_laid_out};
use fix_engine::Flow;
use kind_effects::{MOST_WORDS, entry_frame, fact_after};
use kind_frames::{KindFact, KindFrame};
use method_body::Body;
use op_table::action_of;
use std::alloc::{AllocError, Global};

/// The flow of kinds through a method's code.
#[derive(Drop)]
pub struct KindFlow<'b, 'c> {
    pub(crate) body: &'b Body<'c>,
    pub(crate) edges: Vec<Edge>,
    ghost edges_are: { edges.items ≡ edges_of body.now.instructions },
    ghost few: { length edges.items < 2 ^ 32 },
    ghost short: { length body.now.code.bytes ≤ 65535 },
    ghost within: { AreWithin (length body.now.code.bytes) body.now.instructions },
}

// Adds the edges from an instruction.
fn add_edges(edges: &mut Vec<Edge>, instruction: &Instruction) -> Result<(), AllocError>
    ensures { OnOk result (edges.new.items ≡ edges.old.items ++ edges_from instruction.now) }
{
    let action = action_of(&instruction.instr);
    for to in instruction.successors.as_slice() {
        edges.push(Edge {
            from: instruction.pc,
            action,
            to: *to,
        })?;
    }
    Ok(())
}

// The edges between instructions.
fn edges(alloc: Global, instructions: &[Instruction]) -> Result<Vec<Edge>, AllocError>
    ensures { IfOk result (λ edges. edges.items ≡ edges_of instructions.now) }
{
    let mut edges = Vec::new(alloc);
    for instruction in instructions {
        add_edges(&mut edges, instruction)?;
    }
    Ok(edges)
}

// The frame at the method's start.
pub(crate) fn entry(alloc: Global, body: &Body<'_>) -> Result<KindFrame, AllocError>
    ensures { IfOk result (λ frame. frame ≡ entry_of body.now) }
{
    let method = body.method();
    entry_frame(
        alloc,
        body.code().max_locals,
        is_static(method.flags),
        method.desc.as_slice(),
    )
}

impl<'b, 'c> KindFlow<'b, 'c> {
    /// The flow of the method. `Err` is want of memory, and so are 2^32 edges and more.
    pub fn new(alloc: Global, body: &'b Body<'c>) -> Result<Self, AllocError>
        ensures { IfOk result (λ flow. flow.body.now ≡ body.now) }
    {
        code_is_laid_out();
        body.well_made();
        let edges = edges(alloc, body.instructions())?;
        if edges.len() > u32::MAX as usize {
            return Err(AllocError);
        }
        Ok(KindFlow { body, edges })
    }

    /// The edge of this number.
    fn edge(&self, edge: u32) -> Edge
        requires { edge < length (edges_of self.now.body.now.instructions) }
        ensures { result ≡ edge_at (edges_of self.now.body.now.instructions) edge }
    {
        self.edges[edge as usize]
    }
}

impl Flow for KindFlow<'_, '_> {
    ghost use Rattle.frame_kinds.specs.Flow.{kind_problem};
    ghost use Rattle.frame_kinds.specs.Lawful.{kind_lawful};

    type Fact = KindFact;

    ghost problem = { λ flow. kind_problem flow.body.now };

    ghost lawful = { λ flow. kind_lawful flow.body.now flow.within };

    fn points(&self) -> u32 {
        self.body.code().bytes.len() as u32
    }

    fn edges(&self) -> u32 {
        self.edges.len() as u32
    }

    fn height(&self) -> u64 {
        3 * (u64::from(self.body.code().max_locals) + MOST_WORDS as u64) + 3
    }

    fn source(&self, edge: u32) -> u32 {
        self.edge(edge).from
    }

    fn also(&self, _edge: u32) -> Option<u32> {
        None
    }

    fn goal(&self, edge: u32) -> u32 {
        self.edge(edge).to
    }

    fn start(&self, alloc: Global, point: u32) -> Result<KindFact, AllocError> {
        if point != 0 {
            return Ok(KindFact::Unreached);
        }
        Ok(KindFact::Known(entry(alloc, self.body)?))
    }

    fn transfer<'a>(
        &self,
        alloc: Global,
        edge: u32,
        fact: &'a KindFact,
        _also: Option<&'a KindFact>,
    ) -> Result<KindFact, AllocError> {
        let edge = self.edge(edge);
        let locals = self.body.code().max_locals;
        fact_after(alloc, &self.body.class().pool, edge.action, locals, fact)
    }
}
