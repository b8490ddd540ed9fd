ghost use Rattle.std.specs.Prelude.{◌≡◌, ◌<◌, ◌^◌, length, All, IfOk, MatchOption};
ghost use Rattle.q128.specs.Laws.{IsNarrow};
ghost use Rattle.q128.specs.Fraction.{whole};
ghost use Rattle.lin_rows.specs.Combining.{Combination};
ghost use Rattle.lin_rows.specs.Rows.{lins};
ghost use Rattle.small_sums.specs.Terms.{multipliers_of};
ghost use Rattle.small_cert.specs.Multiples.{times_of};
ghost use Rattle.small_cert.specs.inside.Levels.{scaled_list, IsLeastMatchBy, HasNoneBy};

use lin_rows::Lin;
use small_sums::{RowIndex, Sum};
use std::alloc::{AllocError, Global};

/// How often an inequality is taken.
#[derive(Clone, Copy)]
pub enum Multiple {
    Once,
    Twice,
}

impl Multiple {
    /// The multiple as a number.
    pub fn times(self) -> i128
        ensures { result ≡ times_of self }
    {
        match self {
            Multiple::Once => 1,
            Multiple::Twice => 2,
        }
    }
}

/// The numbers times a factor, where they all fit.
fn scaled(alloc: Global, numbers: &[i128], factor: i128) -> Result<Option<Vec<i128>>, AllocError>
    ensures { IfOk result (λ all. MatchOption all (All IsNarrow (scaled_list factor numbers.now) → ⊥)
        (λ v. All IsNarrow (scaled_list factor numbers.now) × (v.items ≡ scaled_list factor numbers.now))) }
{
    let mut all = Vec::new(alloc);
    for number in numbers {
        match factor.checked_mul(*number) {
            Some(product) => all.push(product)?,
            None => return Ok(None),
        }
    }
    Ok(Some(all))
}

/// The sum with the least constant that has the coefficients, taken once or twice.
pub(crate) fn least_by(
    alloc: Global,
    index: &RowIndex<'_>,
    coefficients: &[i128],
    multiple: Multiple,
) -> Result<Option<Sum>, AllocError>
    requires { length coefficients.now < 2 ^ 32 }
    ensures { IfOk result (λ least. MatchOption least (HasNoneBy (lins index.now) coefficients.now (times_of multiple))
        (λ f. (s : Combination) × IsLeastMatchBy (lins index.now) coefficients.now (times_of multiple) (multipliers_of f.terms) s × (whole f.constant ≡ s.constant))) }
{
    match scaled(alloc, coefficients, multiple.times())? {
        Some(numbers) => index.least(alloc, &Lin::new(alloc, &numbers, 0)?),
        None => Ok(None),
    }
}
