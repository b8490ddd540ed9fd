ghost use Rattle.std.specs.Prelude.{◌≡◌, ◌≤◌, ◌<◌, [], ◌∷◌, ◌++◌, length, take, drop, reverse, slice_get, OnOk, OnErr, MatchOption};
ghost use Rattle.std.specs.Option.{option_copied};

use std::alloc::{AllocError, Global};
use std::marker::Model;
use std::mem;

/// A stack. Contracts see it as the list of its values, the top first.
#[derive(Drop)]
pub struct Stack<T> {
    items: Vec<T>,
}

impl<T> Model for Stack<T> {
    ghost use Rattle.std.specs.Prelude.{List, reverse};
    ghost use Rattle.std.specs.Coded.{coded_list};

    ghost Value = { List T };

    ghost coded = { coded_list T.code };

    ghost view = { λ s. reverse s.items.items };
}

impl<T> Stack<T> {
    /// The empty stack. Takes no memory.
    pub fn new(alloc: Global) -> Self
        ensures { result ≡ [] }
    {
        Stack {
            items: Vec::new(alloc),
        }
    }

    /// How many values there are.
    pub fn len(&self) -> usize
        ensures { result ≡ length self.now }
    {
        self.items.len()
    }

    /// Puts a value on top. An `Err` changes nothing.
    pub fn push(&mut self, value: T) -> Result<(), AllocError>
    where
        T: Drop,
        ensures ok { OnOk result (self.new ≡ value ∷ self.old) }
        ensures err { OnErr result (self.new ≡ self.old) }
    {
        self.items.push(value)?;
        Ok(())
    }

    /// Takes the top off.
    pub fn pop(&mut self) -> Option<T>
        ensures { MatchOption result ((self.old ≡ []) × (self.new ≡ [])) (λ top. self.old ≡ top ∷ self.new) }
    {
        self.items.pop()
    }
}

impl<T> Stack<T> {
    /// The top.
    pub fn top(&self) -> Option<&T>
        ensures { option_copied result ≡ slice_get self.now 0 }
    {
        self.items.as_slice().last()
    }

    /// Puts a value in the place of the top, and the top in its place.
    pub fn swap_top(&mut self, other: &mut T)
        requires { 0 < length self.old }
        ensures stack { self.new ≡ other.old ∷ drop 1 self.old }
        ensures other { self.old ≡ other.new ∷ drop 1 self.old }
    {
        let last = self.items.len() - 1;
        mem::swap(&mut self.items[last], other);
    }

    /// Takes so many values off.
    #[tactic(auto, using(crate::proofs::Reversed::ends))]
    pub fn cut(&mut self, count: usize)
    where
        T: Drop,
        requires { count ≤ length self.old }
        ensures { self.new ≡ drop count self.old }
    {
        let kept = self.items.len() - count;
        self.items.truncate(kept);
    }
}

impl<T: Copy> Stack<T> {
    /// The value that lies so many values below the top.
    pub fn get(&self, depth: usize) -> Option<T>
        ensures { result ≡ slice_get self.now depth }
    {
        if depth < self.items.len() {
            Some(self.items[self.items.len() - 1 - depth])
        } else {
            None
        }
    }

    /// The values on top, so many of them, from the lowest up.
    #[tactic(auto, using(crate::proofs::Reversed::ends))]
    pub fn front(&self, count: usize) -> &[T]
        requires { count ≤ length self.now }
        ensures { result.now ≡ reverse (take count self.now) }
    {
        &self.items[self.items.len() - count..]
    }

    /// Puts values in the place of so many on top, the lowest first. An `Err` changes nothing.
    #[tactic(auto, using(crate::proofs::Reversed::ends))]
    pub fn replace(&mut self, count: usize, values: &[T]) -> Result<(), AllocError>
    where
        T: Drop,
        requires { count ≤ length self.old }
        ensures ok { OnOk result (self.new ≡ reverse values.now ++ drop count self.old) }
        ensures err { OnErr result (self.new ≡ self.old) }
    {
        self.items.reserve(values.len())?;
        self.items.truncate(self.items.len() - count);
        self.items.extend_from_slice(values)?;
        Ok(())
    }
}
