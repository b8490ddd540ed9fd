//! The items of a rule whose calls are replaced.

ghost use Rattle.std.specs.Prelude.{◌≡◌, ◌<◌, ◌≤◌, ◌+◌, ◌^◌, [], Some, map};
ghost use Rattle.base_relations.specs.Steps.{Does, Enters, Leaves};
ghost use Rattle.base_relations.specs.Limits.{total, fresh_at};
ghost use Rattle.base_relations.specs.Making.{lin_made, lins_made, step_made, steps_made, begun, items_made};
ghost use Rattle.base_relations.specs.inside.Gives.{MadeBy, ChangedBy};
ghost use Rattle.base_relations.specs.inside.Trails.{done_step};

use crate::fault::UnfoldFault;
use crate::lins::{lin_numbered, lin_replaced};
use crate::part::{Done, called_args};
use lin_rows::{Lin, Row, Sequence};
use rule_terms::{Item, RulePath, Stack};
use std::alloc::Global;
use std::mem;

/// A rule: the arguments of the call in whose place it stands, none of the rule that has the calls; and the
/// numbers of the variables that it made.
#[derive(Drop)]
pub(crate) struct Frame {
    pub(crate) args: Option<Sequence<Lin>>,
    pub(crate) made: Sequence<(u32, u32)>,
}

/// The items so far; the rule that the next step is of, and those around it; and how many variables there are.
#[derive(Drop)]
pub(crate) struct Making {
    pub(crate) items: Sequence<Item>,
    pub(crate) frame: Frame,
    pub(crate) outer: Stack<Frame>,
    pub(crate) next: u32,
}

impl Frame {
    /// An expression of the rule, over so many variables.
    #[tactic(auto, unfolding(crate::specs::Making::lin_made))]
    fn lin(&self, alloc: Global, n: u32, l: &Lin) -> Result<Lin, UnfoldFault>
        ensures { MadeBy (lin_made self.now n l.now) result }
    {
        match &self.args {
            None => Ok(lin_numbered(alloc, self.made.as_slice(), n, l)?),
            Some(args) => lin_replaced(alloc, args.as_slice(), self.made.as_slice(), n, l),
        }
    }

    /// Expressions of the rule, over so many variables.
    fn lins(&self, alloc: Global, n: u32, ls: &[Lin]) -> Result<Sequence<Lin>, UnfoldFault>
        ensures { MadeBy (lins_made self.now n [] ls.now) result }
    {
        let mut made = Sequence::new(alloc);
        for l in ls {
            made.push(self.lin(alloc, n, l)?)?;
        }
        Ok(made)
    }
}

impl Making {
    /// Where making begins, in a node of so many sizes.
    fn begin(alloc: Global, sizes: u32) -> Making
        ensures { result ≡ begun sizes }
    {
        Making {
            items: Sequence::new(alloc),
            frame: Frame {
                args: None,
                made: Sequence::new(alloc),
            },
            outer: Stack::new(alloc),
            next: sizes,
        }
    }

    /// Makes an item that stays.
    #[tactic(auto, unfolding(crate::specs::Making::step_made))]
    fn item(&mut self, alloc: Global, item: &Item) -> Result<(), UnfoldFault>
        requires { self.old.next < 2 ^ 31 }
        ensures { ChangedBy (step_made self.old (Does item.now)) self.new result }
    {
        let made = match item {
            Item::Assume(row) => Item::Assume(Row {
                lin: self.frame.lin(alloc, self.next, &row.lin)?,
            }),
            Item::Spend(n) => Item::Spend(*n),
            Item::Fresh(v) => {
                self.frame.made.push((*v, self.next))?;
                self.next += 1;
                Item::Fresh(self.next - 1)
            }
            Item::Call(node, args) => {
                Item::Call(*node, self.frame.lins(alloc, self.next, args.as_slice())?)
            }
        };
        self.items.push(made)?;
        Ok(())
    }

    /// Begins a rule in the place of a call.
    #[tactic(auto, unfolding(crate::specs::Making::step_made))]
    fn enter(&mut self, alloc: Global, args: &[Lin]) -> Result<(), UnfoldFault>
        ensures { ChangedBy (step_made self.old (Enters args.now)) self.new result }
    {
        let args = self.frame.lins(alloc, self.next, args)?;
        let inner = Frame {
            args: Some(args),
            made: Sequence::new(alloc),
        };
        let around = mem::replace(&mut self.frame, inner);
        self.outer.push(around)?;
        Ok(())
    }

    /// Goes on in the rule around.
    #[tactic(auto, unfolding(crate::specs::Making::step_made))]
    fn leave(&mut self)
        ensures { step_made self.old Leaves ≡ Some self.new }
    {
        if let Some(around) = self.outer.pop() {
            self.frame = around;
        }
    }

    /// Makes what a step makes.
    fn step(&mut self, alloc: Global, part: &Done<'_>) -> Result<(), UnfoldFault>
        requires { self.old.next < 2 ^ 31 }
        ensures { ChangedBy (step_made self.old (done_step part.now)) self.new result }
    {
        match part {
            Done::Item(item) => self.item(alloc, item),
            Done::Enter(item, _) => self.enter(alloc, called_args(item)),
            Done::Leave => {
                self.leave();
                Ok(())
            }
        }
    }

    /// Makes what all steps make.
    fn steps(&mut self, alloc: Global, parts: &[Done<'_>]) -> Result<(), UnfoldFault>
        requires { self.old.next + total fresh_at (map done_step parts.now) < 2 ^ 31 }
        ensures { ChangedBy (steps_made self.old (map done_step parts.now)) self.new result }
    {
        for part in parts {
            self.step(alloc, part)?;
        }
        Ok(())
    }
}

/// The items of a rule of a node that has so many sizes.
#[tactic(auto, unfolding(crate::specs::Making::items_made))]
pub(crate) fn items_made(
    alloc: Global,
    sizes: u32,
    parts: &[Done<'_>],
) -> Result<RulePath, UnfoldFault>
    requires { sizes + total fresh_at (map done_step parts.now) < 2 ^ 31 }
    ensures { MadeBy (items_made sizes (map done_step parts.now)) result }
{
    let mut making = Making::begin(alloc, sizes);
    making.steps(alloc, parts)?;
    Ok(making.items)
}
