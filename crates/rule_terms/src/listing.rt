ghost use Rattle.std.specs.Prelude.{◌≡◌, IfOk};
ghost use Rattle.rule_terms.specs.Terms.{term_of};
ghost use Rattle.rule_terms.specs.Paths.{paths_of};

use crate::algebra::RuleAlgebra;
use crate::folding::fold;
use crate::item::{Item, RulePath, copied};
use crate::rule::Rule;
use crate::stack::Stack;
use lin_rows::{Lin, Row};
use std::alloc::{AllocError, Global};

// The ways through a rule, the first on top, and of each its first item.
type Ways = Stack<Stack<Item>>;

/// The ways through a rule, as lists of items: the first part of a split before the second. `Err` is want of memory.
pub fn paths(alloc: Global, rule: &Rule) -> Result<Vec<RulePath>, AllocError>
    ensures { IfOk result (λ ways. ways.items ≡ paths_of (term_of rule.now)) }
{
    let mut lister = Lister { alloc };
    let mut ways = fold(alloc, rule, &mut lister)?;
    let mut listed = Vec::new(alloc);
    while let Some(way) = ways.pop() {
        listed.push(way.into_sequence())?;
    }
    Ok(listed)
}

/// Lists the ways from their ends up.
#[derive(Drop)]
struct Lister {
    alloc: Global,
}

impl RuleAlgebra for Lister {
    ghost use Rattle.rule_terms.specs.Paths.{lister};

    type Out = Stack<Stack<Item>>;

    ghost algebra = { lister };

    fn stop(&mut self) -> Result<Ways, AllocError> {
        let mut ways = Stack::new(self.alloc);
        ways.push(Stack::new(self.alloc))?;
        Ok(ways)
    }

    fn assume(&mut self, row: &Row, rest: Ways) -> Result<Ways, AllocError> {
        rest.with_each(&Item::Assume(row.clone()?))
    }

    fn spend(&mut self, n: u64, rest: Ways) -> Result<Ways, AllocError> {
        rest.with_each(&Item::Spend(n))
    }

    fn fresh(&mut self, v: u32, rest: Ways) -> Result<Ways, AllocError> {
        rest.with_each(&Item::Fresh(v))
    }

    fn call(&mut self, node: u32, args: &[Lin], rest: Ways) -> Result<Ways, AllocError> {
        rest.with_each(&Item::Call(node, copied(self.alloc, args)?))
    }

    fn split(&mut self, first: Ways, second: Ways) -> Result<Ways, AllocError> {
        second.below(first)
    }
}
