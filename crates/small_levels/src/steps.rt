ghost use Rattle.std.specs.Prelude.{◌≡◌, ◌<◌, ◌^◌, ◌↔◌, length, IsTrue, IfOk, MatchOption};
ghost use Rattle.lin_rows.specs.Rows.{lins};
ghost use Rattle.small_cert.specs.Least.{IsLeastSum, HasNoLeast};
ghost use Rattle.small_levels.specs.Leveled.{IsLive, ProvesDead};

use lin_rows::{Lin, Mults, Transition};
use small_cert::{Least, entailed, least_constant};
use small_sums::RowIndex;
use std::alloc::{AllocError, Global};
use std::marker::Model;

/// A step with its rows indexed, and multipliers of their contradiction where there is one.
#[derive(Drop)]
pub struct Step<'a> {
    transition: &'a Transition,
    index: RowIndex<'a>,
    dead: Option<Mults>,
}

impl<'a> Model for Step<'a> {
    ghost use Rattle.std.specs.Prelude.{◌≡◌, MatchOption};
    ghost use Rattle.lin_rows.specs.declared.row.Transition.{Transition};
    ghost use Rattle.small_levels.specs.Leveled.{IsLive, ProvesDead};

    ghost Value = { Transition };

    ghost view = { λ s. s.transition.now };

    ghost invariant = { λ s. (s.index ≡ s.transition.now.rows) × MatchOption s.dead (IsLive s.transition.now) (ProvesDead s.transition.now) };
}

impl<'a> Step<'a> {
    /// The step, indexed.
    pub fn of(alloc: Global, transition: &'a Transition) -> Result<Step<'a>, AllocError>
        requires { length transition.now.rows < 2 ^ 32 }
        ensures { IfOk result (λ s. s ≡ transition.entry.now) }
    {
        let index = RowIndex::build(alloc, transition.rows.as_slice())?;
        let falsehood = Lin::new(alloc, &[], -1)?;
        let dead = entailed(alloc, &index, &falsehood)?;
        Ok(Step {
            transition,
            index,
            dead,
        })
    }

    /// Multipliers of the contradiction of its rows, where it isn't live.
    pub fn dead(&self) -> &Option<Mults>
        ensures { MatchOption result.now (IsLive self.now) (ProvesDead self.now) }
    {
        &self.dead
    }

    /// Whether its rows contradict each other.
    pub fn is_dead(&self) -> bool
        ensures dead { IsTrue result → IsLive self.now → ⊥ }
        ensures live { (IsTrue result → ⊥) → IsLive self.now }
    {
        self.dead.is_some()
    }

    /// The values after the step.
    pub fn next(&self) -> &[Lin]
        ensures { result.now ≡ self.now.next }
    {
        self.transition.next.as_slice()
    }

    /// The least constant with which the coefficients are small from its rows.
    pub fn least(&self, alloc: Global, coefficients: &[i128]) -> Result<Option<Least>, AllocError>
        requires { length coefficients.now < 2 ^ 32 }
        ensures { IfOk result (λ answer. MatchOption answer (HasNoLeast (lins self.now.rows) coefficients.now) (IsLeastSum (lins self.now.rows) coefficients.now)) }
    {
        least_constant(alloc, &self.index, coefficients)
    }
}
