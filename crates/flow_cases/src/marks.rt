ghost use Rattle.std.specs.Prelude.{◌≡◌, ◌<◌, Some, slice_get, length, IfOk};
ghost use Rattle.std.specs.List.{list_any};
ghost use Rattle.std.specs.Option.{option_copied};
ghost use Rattle.flow_cases.specs.Marking.{marks_slot, marked_by};

use crate::edge::Way;
use crate::program::Program;
use crate::slots::Slots;
use fix_engine::Flow;
use std::alloc::{AllocError, Global};

/// Which slots may be marked at each point of a program.
#[derive(Drop)]
pub struct Marks<'a> {
    program: &'a Program,
}

/// Whether the way marks this slot.
fn marks_slot(way: &Way, slot: u32, fact: &Slots, also: Option<&Slots>) -> bool
    ensures { result ≡ marks_slot fact.now (option_copied also.entry) slot way.now }
{
    let with = match also {
        Some(also) => also.is_marked(way.with),
        None => way.with.is_none(),
    };
    way.to == slot && fact.is_marked(way.from) && with
}

/// Whether one of the ways marks this slot.
fn is_marked_by(ways: &[Way], slot: u32, fact: &Slots, also: Option<&Slots>) -> bool
    ensures { result
        ≡ list_any (λ way. marks_slot fact.now (option_copied also.entry) slot way) ways.now }
{
    ways.iter().any(|way| marks_slot(way, slot, fact, also))
}

/// Of so many slots those that the ways mark.
fn marked_by(
    alloc: Global,
    width: u32,
    ways: &[Way],
    fact: &Slots,
    also: Option<&Slots>,
) -> Result<Slots, AllocError>
    ensures { IfOk result
        (λ slots. slots ≡ marked_by width ways.now fact.now (option_copied also.entry)) }
{
    let mut slots = Vec::new(alloc);
    for slot in 0..width {
        slots.push(is_marked_by(ways, slot, fact, also))?;
    }
    Ok(Slots::of(slots))
}

impl<'a> Marks<'a> {
    /// The flow of this program.
    pub fn of(program: &'a Program) -> Self
        ensures { result.program.now ≡ program.entry.now }
    {
        Marks { program }
    }
}

impl Flow for Marks<'_> {
    ghost use Rattle.flow_cases.specs.Marking.{marking};
    ghost use Rattle.flow_cases.specs.MarkingLaws.{marking_lawful};

    type Fact = Slots;

    ghost problem = { λ flow. marking flow.program.now.starts.items flow.program.now.edges.items };

    ghost lawful = { λ flow. marking_lawful flow.program.now.starts.items flow.program.now.edges.items flow.program.now.within flow.program.now.few_slots };

    fn points(&self) -> u32 {
        self.program.points()
    }

    fn edges(&self) -> u32 {
        self.program.edges()
    }

    fn height(&self) -> u64 {
        65
    }

    fn source(&self, edge: u32) -> u32 {
        self.program.edge(edge).source
    }

    fn also(&self, edge: u32) -> Option<u32> {
        self.program.edge(edge).also
    }

    fn goal(&self, edge: u32) -> u32 {
        self.program.edge(edge).goal
    }

    fn start(&self, alloc: Global, point: u32) -> Result<Slots, AllocError> {
        let slots = self.program.start(point).as_slice().to_vec(alloc)?;
        Ok(Slots::of(slots))
    }

    fn transfer<'a>(
        &self,
        alloc: Global,
        edge: u32,
        fact: &'a Slots,
        also: Option<&'a Slots>,
    ) -> Result<Slots, AllocError> {
        let edge = self.program.edge(edge);
        let width = self.program.start(edge.goal).as_slice().len() as u32;
        marked_by(alloc, width, edge.ways.as_slice(), fact, also)
    }
}
