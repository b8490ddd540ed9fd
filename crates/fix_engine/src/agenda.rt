ghost use Rattle.std.specs.Prelude.{◌≡◌, ℕ, ◌<◌, [], ◌∷◌, length, All, Contains, IfOk, OnOk, MatchOption};
ghost use Rattle.fix_engine.specs.Agenda.{Grows};

use std::alloc::{AllocError, Global};
use std::collections::VecDeque;
use std::marker::Model;

/// The edges that wait to be visited, in the order in which they came. An edge that waits isn't
/// added again.
#[derive(Drop)]
pub struct Agenda {
    waiting: VecDeque<u32>,
    is_waiting: Vec<bool>,
}

impl Model for Agenda {
    ghost use Rattle.std.specs.Prelude.{length};
    ghost use Rattle.fix_engine.specs.Agenda.{Waiting, IsMarked};

    ghost Value = { Waiting };

    ghost view = { λ a. record { edges = length a.is_waiting.items; list = a.waiting.items } };

    ghost invariant = { λ a. IsMarked a.is_waiting.items a.waiting.items };
}

impl Agenda {
    /// The agenda on which each of so many edges waits, by number.
    pub fn all(alloc: Global, edges: u32) -> Result<Self, AllocError>
        ensures edges { IfOk result (λ agenda. agenda.edges ≡ edges) }
        ensures count { IfOk result (λ agenda. length agenda.list ≡ edges) }
        ensures listed { IfOk result (λ agenda. (e : ℕ) → e < edges → Contains agenda.list e) }
    {
        let mut waiting = VecDeque::new(alloc);
        for edge in 0..edges {
            waiting.push_back(edge)?;
        }
        let is_waiting = vec![in alloc; true; edges as usize]?;
        Ok(Agenda {
            waiting,
            is_waiting,
        })
    }

    /// Takes the edge that waits longest off the agenda.
    pub fn next(&mut self) -> Option<u32>
        ensures { MatchOption result
            (self.old.list ≡ [])
            (λ edge. (self.old.list ≡ edge ∷ self.new.list) × (self.new.edges ≡ self.old.edges) × (edge < self.old.edges)) }
    {
        let edge = self.waiting.pop_front()?;
        self.is_waiting[edge as usize] = false;
        Some(edge)
    }

    /// Adds an edge, unless it waits.
    pub fn add(&mut self, edge: u32) -> Result<(), AllocError>
        requires { edge < self.old.edges }
        ensures grows { OnOk result (Grows self.old self.new 1) }
        ensures listed { OnOk result (Contains self.new.list edge) }
    {
        if !self.is_waiting[edge as usize] {
            self.waiting.push_back(edge)?;
            self.is_waiting[edge as usize] = true;
        }
        Ok(())
    }

    /// Adds each of these edges, unless it waits.
    pub fn add_all(&mut self, edges: &[u32]) -> Result<(), AllocError>
        requires { All (λ edge. edge < self.old.edges) edges.now }
        ensures grows { OnOk result (Grows self.old self.new (length edges.now)) }
        ensures listed { OnOk result (All (Contains self.new.list) edges.now) }
    {
        for edge in edges {
            self.add(*edge)?;
        }
        Ok(())
    }
}
