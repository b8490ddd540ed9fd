ghost use Rattle.std.specs.Prelude.{◌≡◌, IfOk};

use lin_rows::{Lin, Row, Sequence};
use std::alloc::{AllocError, Global};

/// What a rule does at one place.
#[derive(Drop)]
pub enum Item {
    /// Goes on only where the row holds.
    Assume(Row),
    /// Costs so much.
    Spend(u64),
    /// Gives a variable any whole number.
    Fresh(u32),
    /// Calls a node with these sizes.
    Call(u32, Sequence<Lin>),
}

/// The items on one way through a rule, in order.
pub type RulePath = Sequence<Item>;

/// The same expressions again.
pub(crate) fn copied(alloc: Global, lins: &[Lin]) -> Result<Sequence<Lin>, AllocError>
    ensures { IfOk result (λ made. made ≡ lins.now) }
{
    let mut made = Sequence::new(alloc);
    for lin in lins {
        made.push(lin.clone()?)?;
    }
    Ok(made)
}

impl Clone for Item {
    ghost is_clone = { λ i c. c ≡ i };

    fn clone(&self) -> Result<Self, AllocError> {
        match self {
            Item::Assume(row) => Ok(Item::Assume(row.clone()?)),
            Item::Spend(n) => Ok(Item::Spend(*n)),
            Item::Fresh(v) => Ok(Item::Fresh(*v)),
            Item::Call(node, args) => Ok(Item::Call(*node, args.clone()?)),
        }
    }
}
