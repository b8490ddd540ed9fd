ghost use Rattle.std.specs.Prelude.{◌≡◌, ◌↔◌, Contains, IsTrue};
ghost use Rattle.slot_facts.specs.Facts.{is_pair, may_share};

use crate::kind::Kind;
use class_pool::Sequence;

/// What is known of a frame's slots at one point of the code. Slots are numbered from 0, the locals first and then the
/// operand stack from the bottom.
#[derive(Drop)]
pub struct SlotFacts {
    /// The kind of each slot.
    pub kinds: Sequence<Kind>,
    /// The slots that hold no null.
    pub non_null: Sequence<u32>,
    /// The pairs of slots that may share: from both, references may lead to one object or array. Each pair stands once,
    /// in either order.
    pub sharing: Sequence<(u32, u32)>,
    /// The slots from which references may lead into a cycle.
    pub cyclic: Sequence<u32>,
}

impl SlotFacts {
    /// Whether the slot is known to hold no null.
    pub fn is_non_null(&self, slot: u32) -> bool
        ensures { IsTrue result ↔ Contains self.now.non_null slot }
    {
        self.non_null.as_slice().contains(&slot)
    }

    /// Whether the two slots may share.
    pub fn may_share(&self, a: u32, b: u32) -> bool
        ensures { result ≡ may_share self.now a b }
    {
        self.sharing
            .as_slice()
            .iter()
            .any(|pair| is_pair(a, b, *pair))
    }

    /// Whether references may lead from the slot into a cycle.
    pub fn may_cycle(&self, slot: u32) -> bool
        ensures { IsTrue result ↔ Contains self.now.cyclic slot }
    {
        self.cyclic.as_slice().contains(&slot)
    }
}

// Whether the pair is of the two slots, in either order.
fn is_pair(a: u32, b: u32, pair: (u32, u32)) -> bool
    ensures { result ≡ is_pair a b pair }
{
    (pair.0 == a && pair.1 == b) || (pair.0 == b && pair.1 == a)
}
