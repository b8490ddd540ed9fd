//! The cap that a sum of rows makes: its numbers, shared by the multiple, and those of the expression.

ghost use Rattle.std.specs.Prelude.{◌≡◌, ◌≢◌, ◌<◌, ◌^◌, ◌-ℤ◌, ◌*ℤ◌, ◌≤ℤ◌, ℤ, pos, List, length, Contains, IfOk, MatchOption};
ghost use Rattle.q128.specs.Laws.{IsNarrow};
ghost use Rattle.lin_rows.specs.Linear.{Linear};
ghost use Rattle.small_cert.specs.Multiples.{times_of};
ghost use Rattle.small_caps.specs.Caps.{IsCapOf};
ghost use Rattle.small_caps.specs.inside.Numbers.{IsCoefficient, IsRounded, IsWholeSum, IsCoefficientAt, AreCoefficients};

use crate::entries::is_entry;
use lin_rows::{Comb, Lin};
use small_cert::Multiple;
use std::alloc::{AllocError, Global};

/// A number divided by the multiple, and rounded up.
fn share(number: i128, multiple: Multiple) -> i128
    ensures low { number ≤ℤ (times_of multiple *ℤ result) }
    ensures high { number ≤ℤ (times_of multiple *ℤ (result -ℤ pos 1)) → ⊥ }
{
    match multiple {
        Multiple::Once => number,
        Multiple::Twice => number.div_euclid(2) + number.rem_euclid(2),
    }
}

/// The coefficient that numbers of the sum and of the expression make, where it is whole and fits.
fn coefficient(sum: i128, own: i128, multiple: Multiple) -> Option<i128>
    ensures { MatchOption result ((x : ℤ) → IsCoefficient sum own (times_of multiple) x → IsNarrow x → ⊥) (IsCoefficient sum own (times_of multiple)) }
{
    let shared = share(sum, multiple);
    let made = shared.checked_add(own)?;
    if matches!(multiple, Multiple::Twice) && sum.rem_euclid(2) != 0 {
        None
    } else {
        Some(made)
    }
}

/// The constant, where it and its multiple's distance to the expression's own fit.
fn constant(sum: i128, own: i128, multiple: Multiple) -> Option<i128>
    ensures { MatchOption result ((x : ℤ) → IsRounded sum own (times_of multiple) x → IsNarrow x → IsNarrow (times_of multiple *ℤ (x -ℤ own)) → ⊥)
        (λ x. IsRounded sum own (times_of multiple) x × IsNarrow (times_of multiple *ℤ (x -ℤ own))) }
{
    let shared = share(sum, multiple);
    match multiple.times().checked_mul(shared) {
        Some(_) => shared.checked_add(own),
        None => None,
    }
}

/// The coefficient, unless it isn't 0 and its variable is no entry size.
fn over(made: i128, entry: &[u32], v: u32) -> Option<i128>
    ensures { MatchOption result ((made ≢ pos 0) × (Contains entry.now v → ⊥)) (λ x. (x ≡ made) × (x ≢ pos 0 → Contains entry.now v)) }
{
    if made != 0 && !is_entry(entry, v) {
        None
    } else {
        Some(made)
    }
}

/// The coefficient of a variable, which is 0 where it is no entry size.
fn coefficient_at(sum: &Comb, l: &Lin, entry: &[u32], multiple: Multiple, v: u32) -> Option<i128>
    requires { IsWholeSum sum.now }
    ensures { MatchOption result ((x : ℤ) → IsCoefficientAt sum.now l.now entry.now (times_of multiple) v x → ⊥) (IsCoefficientAt sum.now l.now entry.now (times_of multiple) v) }
{
    let number = sum.get(v).numerator();
    let own = l.get(v);
    match coefficient(number, own, multiple) {
        Some(made) => over(made, entry, v),
        None => None,
    }
}

/// The coefficients, where all of them are made.
fn coefficients(
    alloc: Global,
    sum: &Comb,
    l: &Lin,
    entry: &[u32],
    multiple: Multiple,
) -> Result<Option<Vec<i128>>, AllocError>
    requires { IsWholeSum sum.now }
    ensures { IfOk result (λ answer. MatchOption answer ((cs : List ℤ) → AreCoefficients sum.now l.now entry.now (times_of multiple) cs → ⊥)
        (λ made. AreCoefficients sum.now l.now entry.now (times_of multiple) made.items × (length made.items < 2 ^ 32))) }
{
    let mut list = Vec::new(alloc);
    for v in 0..sum.len().max(l.len()) {
        match coefficient_at(sum, l, entry, multiple, v) {
            Some(made) => list.push(made)?,
            None => return Ok(None),
        }
    }
    Ok(Some(list))
}

/// The cap that a sum makes, if it makes one.
pub fn cap_of(
    alloc: Global,
    sum: &Comb,
    l: &Lin,
    entry: &[u32],
    multiple: Multiple,
) -> Result<Option<Lin>, AllocError>
    requires { IsWholeSum sum.now }
    ensures { IfOk result (λ answer. MatchOption answer ((u : Linear) → IsCapOf sum.now l.now entry.now u (times_of multiple) → ⊥)
        (λ u. IsCapOf sum.now l.now entry.now u (times_of multiple))) }
{
    let list = match coefficients(alloc, sum, l, entry, multiple)? {
        Some(list) => list,
        None => return Ok(None),
    };
    match constant(sum.constant().numerator(), l.constant(), multiple) {
        Some(made) => Ok(Some(Lin::new(alloc, &list, made)?)),
        None => Ok(None),
    }
}
