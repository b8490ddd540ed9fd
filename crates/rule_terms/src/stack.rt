ghost use Rattle.std.specs.Prelude.{◌≡◌, [], ◌∷◌, ◌++◌, reverse, IfOk, OnOk, OnErr, MatchOption};
ghost use Rattle.rule_terms.specs.Paths.{behind};

use crate::item::Item;
use lin_rows::Sequence;
use std::alloc::{AllocError, Global};
use std::marker::Model;

/// A stack. Contracts see it as the list of its values, the top first.
#[derive(Drop)]
pub struct Stack<T> {
    items: Vec<T>,
}

impl<T> Model for Stack<T> {
    ghost use Rattle.std.specs.Prelude.{List, reverse};
    ghost use Rattle.std.specs.Coded.{coded_list};

    ghost Value = { List T };

    ghost coded = { coded_list T.code };

    ghost view = { λ s. reverse s.items.items };
}

impl<T> Stack<T> {
    /// The empty stack. Takes no memory.
    pub fn new(alloc: Global) -> Self
        ensures { result ≡ [] }
    {
        Stack {
            items: Vec::new(alloc),
        }
    }

    /// The values from the lowest up.
    pub fn from_below(&self) -> &[T]
        ensures { result.now ≡ reverse self.now }
    {
        self.items.as_slice()
    }

    /// Puts a value on top. An `Err` changes nothing.
    pub fn push(&mut self, value: T) -> Result<(), AllocError>
    where
        T: Drop,
        ensures ok { OnOk result (self.new ≡ value ∷ self.old) }
        ensures err { OnErr result (self.new ≡ self.old) }
    {
        self.items.push(value)?;
        Ok(())
    }

    /// Takes the top off.
    pub fn pop(&mut self) -> Option<T>
        ensures { MatchOption result ((self.old ≡ []) × (self.new ≡ [])) (λ top. self.old ≡ top ∷ self.new) }
    {
        self.items.pop()
    }

    /// This stack with another one above it.
    pub fn below(mut self, above: Stack<T>) -> Result<Stack<T>, AllocError>
    where
        T: Drop,
        ensures { IfOk result (λ both. both ≡ above ++ self) }
    {
        let mut items = above.items;
        self.items.append(&mut items)?;
        Ok(self)
    }

    /// The values as a list, the top first. Takes no memory.
    pub fn into_sequence(self) -> Sequence<T>
        ensures { result ≡ self }
    {
        let mut items = self.items;
        items.reverse();
        Sequence::from(items)
    }
}

impl Stack<Stack<Item>> {
    /// The stacks with an item on top of each.
    #[tactic(auto, using(crate::proofs::Ways::behind_reverse))]
    pub(crate) fn with_each(mut self, item: &Item) -> Result<Self, AllocError>
        ensures { IfOk result (λ made. made ≡ behind item.now self) }
    {
        put_on_each(&mut self.items, item)?;
        Ok(self)
    }
}

// Puts an item on top of each stack.
fn put_on_each(stacks: &mut Vec<Stack<Item>>, item: &Item) -> Result<(), AllocError>
    ensures { OnOk result (stacks.new.items ≡ behind item.now stacks.old.items) }
{
    for i in 0..stacks.len() {
        let stack = &mut stacks[i];
        stack.push(item.clone()?)?;
    }
    Ok(())
}
