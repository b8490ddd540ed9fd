ghost use Rattle.std.specs.Prelude.{ℤ, ◌<◌, ◌^◌, ◌↔◌, length, IsTrue, IfOk, MatchOption};
ghost use Rattle.lin_rows.specs.Proving.{Multipliers};
ghost use Rattle.lin_rows.specs.Rows.{lins};
ghost use Rattle.small_cert.specs.Multiples.{times_of};
ghost use Rattle.small_cert.specs.Small.{IsSmall, IsSmallBy, AreShared};

use crate::multiple::{Multiple, least_by};
use crate::share::shares_of;
use lin_rows::{Lin, Mults, Row};
use small_sums::RowIndex;
use std::alloc::{AllocError, Global};

/// Multipliers of a small sum that proves the goal, taken so often.
fn entailed_by(
    alloc: Global,
    index: &RowIndex<'_>,
    goal: &Lin,
    multiple: Multiple,
) -> Result<Option<Mults>, AllocError>
    ensures { IfOk result (λ answer. MatchOption answer ((m : Multipliers) → IsSmallBy (lins index.now) goal.now m (times_of multiple) → ⊥)
        (λ n. (m : Multipliers) × IsSmallBy (lins index.now) goal.now m (times_of multiple) × AreShared n m (times_of multiple))) }
{
    let _places = goal.len();
    let constant = match multiple.times().checked_mul(goal.constant()) {
        Some(constant) => constant,
        None => return Ok(None),
    };
    match least_by(alloc, index, goal.coefficients(), multiple)? {
        Some(sum) => {
            if sum.constant <= constant {
                Ok(Some(shares_of(alloc, sum.terms, multiple)?))
            } else {
                Ok(None)
            }
        }
        None => Ok(None),
    }
}

/// Multipliers of a small sum that proves the goal from the indexed rows, or None exactly where there is none.
pub fn entailed(
    alloc: Global,
    index: &RowIndex<'_>,
    goal: &Lin,
) -> Result<Option<Mults>, AllocError>
    ensures { IfOk result (λ answer. MatchOption answer (IsSmall (lins index.now) goal.now → ⊥)
        (λ n. (m : Multipliers) × (k : ℤ) × IsSmallBy (lins index.now) goal.now m k × AreShared n m k)) }
{
    match entailed_by(alloc, index, goal, Multiple::Once)? {
        Some(mults) => Ok(Some(mults)),
        None => entailed_by(alloc, index, goal, Multiple::Twice),
    }
}

/// Multipliers of a small sum that proves the goal from the rows, or None exactly where there is none.
pub fn small_entails(alloc: Global, rows: &[Row], goal: &Row) -> Result<Option<Mults>, AllocError>
    requires { length rows.now < 2 ^ 32 }
    ensures { IfOk result (λ answer. MatchOption answer (IsSmall (lins rows.now) goal.now.lin → ⊥)
        (λ n. (m : Multipliers) × (k : ℤ) × IsSmallBy (lins rows.now) goal.now.lin m k × AreShared n m k)) }
{
    let index = RowIndex::build(alloc, rows)?;
    entailed(alloc, &index, &goal.lin)
}

/// Whether the goal is small from the indexed rows.
pub fn is_small(alloc: Global, index: &RowIndex<'_>, goal: &Lin) -> Result<bool, AllocError>
    ensures { IfOk result (λ b. IsTrue b ↔ IsSmall (lins index.now) goal.now) }
{
    Ok(entailed(alloc, index, goal)?.is_some())
}
