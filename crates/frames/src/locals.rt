ghost use Rattle.std.specs.Prelude.{◌≡◌, ◌≤◌, ◌<◌, length, slice_get, slice_set, IfOk, IsSome, Some, is_some};
ghost use Rattle.frames.specs.Words.{first_locals, held, loaded, stored};

use crate::Value;
use op_table::acts::Kind;
use std::alloc::AllocError;
use std::marker::Model;

/// The locals of a frame (JVMS 2.6.1). Contracts see them as the list of their words.
#[derive(Drop)]
pub struct Locals {
    words: Vec<Value>,
}

impl Model for Locals {
    ghost use Rattle.std.specs.Prelude.{List};
    ghost use Rattle.frames.specs.declared.value.Value.{Value as Word};

    ghost Value = { List Word };

    ghost view = { λ s. s.words.items };
}

impl Locals {
    /// The words in the first locals, and nothing in the others, up to a size in words.
    pub fn of_words(words: Vec<Value>, size: usize) -> Result<Self, AllocError>
        requires { length words.items ≤ size }
        ensures { IfOk result (λ locals. locals ≡ first_locals words.items size) }
    {
        let mut words = words;
        words.resize(size, Value::Pad)?;
        Ok(Locals { words })
    }

    /// How many words there are.
    pub fn len(&self) -> usize
        ensures { result ≡ length self.now }
    {
        self.words.len()
    }

    /// The word of a local.
    pub fn get(&self, local: usize) -> Option<Value>
        ensures { result ≡ slice_get self.now local }
    {
        self.words.get(local).copied()
    }

    /// The value of the kind in a local: none where another word stands there. A long takes two locals.
    pub fn load(&self, kind: Kind, local: u16) -> Option<Value>
        ensures { result ≡ loaded kind self.now local }
    {
        let local = usize::from(local);
        as_kind(kind, self.get(local), self.get(local + 1))
    }

    /// Whether the value can be stored from a local on. A long takes two locals.
    pub fn can_store(&self, local: u16, value: Value) -> bool
        ensures { result ≡ is_some (stored self.now local value) }
    {
        let local = usize::from(local);
        match value {
            Value::Long(_) => local + 1 < self.words.len(),
            _ => local < self.words.len(),
        }
    }

    /// Stores the value from a local on. A long takes two locals.
    pub fn store(&mut self, local: u16, value: Value)
        requires { IsSome (stored self.old local value) }
        ensures { stored self.old local value ≡ Some self.new }
    {
        let local = usize::from(local);
        self.set(local, value);
        if let Value::Long(_) = value {
            self.set(local + 1, Value::Pad);
        }
    }

    /// Puts a word into a local.
    pub fn set(&mut self, local: usize, word: Value)
        requires { local < length self.old }
        ensures { self.new ≡ slice_set self.old local word }
    {
        self.words[local] = word;
    }
}

// The value of the kind, from the word of a local and the one behind it.
fn as_kind(kind: Kind, word: Option<Value>, next: Option<Value>) -> Option<Value>
    ensures { result ≡ held kind word next }
{
    match (kind, word?, next) {
        (Kind::Int, Value::Int(n), _) => Some(Value::Int(n)),
        (Kind::Long, Value::Long(n), Some(Value::Pad)) => Some(Value::Long(n)),
        (Kind::Reference, Value::Null, _) => Some(Value::Null),
        (Kind::Reference, Value::Ref(r), _) => Some(Value::Ref(r)),
        _ => None,
    }
}
