//! The counters as code.
ghost use Rattle.std.specs.Prelude.{◌≡◌, ◌+◌, ◌^◌, ◌<◌, ◌↔◌, IsTrue, OnOk, OnErr};

use std::alloc::{AllocError, Global};
use std::marker::Model;

/// What it costs to count down by one.
const COUNT_COST: u64 = 1;

/// What a call costs.
const CALL_COST: u64 = 2;

/// What a return costs.
const RETURN_COST: u64 = 1;

/// What the running counter does in one step.
#[derive(Clone, Copy)]
pub enum Action {
    /// It counts down by one.
    Count,
    /// It calls another one, which starts with one less.
    Call,
    /// It returns what is left to its caller, which goes on with that.
    Return,
}

/// A stack of counters, each of which called the next, and what they spent. Contracts see it as a `State`.
#[derive(Drop)]
pub struct Counters {
    running: u32,
    waiting: Vec<u32>,
    spent: u64,
    ended: bool,
}

impl Model for Counters {
    ghost use Rattle.std.specs.Prelude.{reverse};
    ghost use Rattle.nested_runs.specs.Counting.{State, coded_state};

    ghost Value = { State };

    ghost coded = { coded_state };

    ghost view = { λ c. record { running = c.running; waiting = reverse c.waiting.items; spent = c.spent; ended = c.ended } };
}

impl Counters {
    ghost use Rattle.nested_runs.specs.Counting.{first_state, IsPossible, after};

    /// One counter, which has spent nothing. Takes no memory.
    pub fn new(alloc: Global, counter: u32) -> Self
        ensures { result ≡ first_state counter }
    {
        Counters {
            running: counter,
            waiting: Vec::new(alloc),
            spent: 0,
            ended: false,
        }
    }

    /// What the steps so far have cost.
    pub fn spent(&self) -> u64
        ensures { result ≡ self.now.spent }
    {
        self.spent
    }

    /// What the running counter has left.
    pub fn running(&self) -> u32
        ensures { result ≡ self.now.running }
    {
        self.running
    }

    /// Whether the first counter has returned.
    pub fn has_ended(&self) -> bool
        ensures { result ≡ self.now.ended }
    {
        self.ended
    }

    /// Whether the running counter can make a step.
    pub fn can(&self, action: Action) -> bool
        ensures { IsTrue result ↔ IsPossible action self.now }
    {
        match action {
            Action::Count | Action::Call => !self.ended && self.running > 0,
            Action::Return => !self.ended,
        }
    }

    /// Makes a step. Want of memory, in a call, leaves all as it was.
    pub fn make(&mut self, action: Action) -> Result<(), AllocError>
        requires possible { IsPossible action self.old }
        requires room { self.old.spent + 2 < 2 ^ 64 }
        ensures ok { OnOk result (self.new ≡ after action self.old) }
        ensures err { OnErr result (self.new ≡ self.old) }
    {
        match action {
            Action::Count => self.count(),
            Action::Call => self.call()?,
            Action::Return => self.leave(),
        }
        Ok(())
    }

    fn count(&mut self)
        requires possible { IsPossible Action.Count self.old }
        requires room { self.old.spent + 2 < 2 ^ 64 }
        ensures { self.new ≡ after Action.Count self.old }
    {
        self.running -= 1;
        self.spent += COUNT_COST;
    }

    fn call(&mut self) -> Result<(), AllocError>
        requires possible { IsPossible Action.Call self.old }
        requires room { self.old.spent + 2 < 2 ^ 64 }
        ensures ok { OnOk result (self.new ≡ after Action.Call self.old) }
        ensures err { OnErr result (self.new ≡ self.old) }
    {
        let callee = self.running - 1;
        self.waiting.push(self.running)?;
        self.running = callee;
        self.spent += CALL_COST;
        Ok(())
    }

    fn leave(&mut self)
        requires possible { IsPossible Action.Return self.old }
        requires room { self.old.spent + 2 < 2 ^ 64 }
        ensures { self.new ≡ after Action.Return self.old }
    {
        if self.waiting.pop().is_none() {
            self.ended = true;
        }
        self.spent += RETURN_COST;
    }
}
