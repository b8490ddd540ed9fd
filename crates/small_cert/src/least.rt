ghost use Rattle.std.specs.Prelude.{◌≡◌, ◌<◌, ◌^◌, ◌↔◌, ◌*ℤ◌, ◌≤ℤ◌, pos, length, IsTrue, IfOk, MatchOption};
ghost use Rattle.lin_rows.specs.Rows.{lins};
ghost use Rattle.small_cert.specs.Small.{AreShared};
ghost use Rattle.small_sums.specs.Terms.{multipliers_of};
ghost use Rattle.small_cert.specs.Multiples.{times_of};
ghost use Rattle.small_cert.specs.Least.{IsLeastSum, HasNoLeast};
ghost use Rattle.small_cert.specs.inside.Lesser.{taken_as, IsLesser};

use crate::multiple::{Multiple, least_by};
use crate::share::shares_of;
use lin_rows::Mults;
use small_sums::{RowIndex, Sum, Terms};
use std::alloc::{AllocError, Global};

/// The least constant with which coefficients are small: the constant of a sum of rows, shared by the multiple.
#[derive(Clone, Copy)]
pub struct Least {
    pub terms: Terms,
    pub multiple: Multiple,
    pub sum: i128,
}

impl Least {
    /// Multipliers of the inequality itself.
    pub fn mults(self, alloc: Global) -> Result<Mults, AllocError>
        ensures { IfOk result (λ n. AreShared n (multipliers_of self.terms) (times_of self.multiple)) }
    {
        shares_of(alloc, self.terms, self.multiple)
    }
}

/// Whether `once` is at most half of `twice`.
fn is_at_most_half(once: i128, twice: i128) -> bool
    ensures { IsTrue result ↔ ((pos 2 *ℤ once) ≤ℤ twice) }
{
    once <= twice.div_euclid(2)
}

/// The lesser of the two constants, of which the second is shared by 2.
fn lesser(once: Option<Sum>, twice: Option<Sum>) -> Option<Least>
    ensures { IsLesser once twice result }
{
    match (once, twice) {
        (Some(a), Some(b)) => {
            if is_at_most_half(a.constant, b.constant) {
                Some(taken(a, Multiple::Once))
            } else {
                Some(taken(b, Multiple::Twice))
            }
        }
        (Some(a), None) => Some(taken(a, Multiple::Once)),
        (None, Some(b)) => Some(taken(b, Multiple::Twice)),
        (None, None) => None,
    }
}

/// The constant of a sum for a multiple.
fn taken(sum: Sum, multiple: Multiple) -> Least
    ensures { result ≡ taken_as multiple sum }
{
    Least {
        terms: sum.terms,
        multiple,
        sum: sum.constant,
    }
}

/// The least constant with which the coefficients are small from the indexed rows, or None exactly where there is none.
/// It takes two searches of the index.
pub fn least_constant(
    alloc: Global,
    index: &RowIndex<'_>,
    coefficients: &[i128],
) -> Result<Option<Least>, AllocError>
    requires { length coefficients.now < 2 ^ 32 }
    ensures { IfOk result (λ answer. MatchOption answer (HasNoLeast (lins index.now) coefficients.now) (IsLeastSum (lins index.now) coefficients.now)) }
{
    let once = least_by(alloc, index, coefficients, Multiple::Once)?;
    let twice = least_by(alloc, index, coefficients, Multiple::Twice)?;
    Ok(lesser(once, twice))
}
