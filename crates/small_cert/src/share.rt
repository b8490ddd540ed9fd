//! Multipliers of an inequality, from those of a multiple of it.

ghost use Rattle.std.specs.Prelude.{◌≡◌, ◌++◌, [], ◌∷◌, pos, IfOk, OnOk};
ghost use Rattle.q128.specs.Fraction.{Fraction, whole, IsQuotient};
ghost use Rattle.small_sums.specs.Terms.{factor_of, multipliers_of};
ghost use Rattle.small_cert.specs.Multiples.{times_of};
ghost use Rattle.small_cert.specs.Small.{AreShared};

use crate::multiple::Multiple;
use lin_rows::Mults;
use q128::Q;
use small_sums::{Term, Terms};
use std::alloc::{AllocError, Global};

/// 1/2.
fn half() -> Q
    ensures { IsQuotient result (whole (pos 1)) (whole (pos 2)) }
{
    Q::new(1, 2).unwrap()
}

/// The factor of a row, divided by the multiple.
fn share_of(twice: bool, multiple: Multiple) -> Q
    ensures { IsQuotient result (factor_of twice) (whole (times_of multiple)) }
{
    match multiple {
        Multiple::Once => Q::whole(if twice { 2 } else { 1 }),
        Multiple::Twice => { if twice { Q::whole(1) } else { half() } }
    }
}

/// Adds a row with its share.
pub fn push_share(mults: &mut Mults, term: Term, multiple: Multiple) -> Result<(), AllocError>
    ensures { OnOk result ((q : Fraction) × IsQuotient q (factor_of term.twice) (whole (times_of multiple)) × (mults.new ≡ mults.old ++ (term.number, q) ∷ [])) }
{
    mults.push(term.number, share_of(term.twice, multiple))
}

/// The multipliers of an inequality, where the rows are those of a multiple of it.
pub(crate) fn shares_of(
    alloc: Global,
    terms: Terms,
    multiple: Multiple,
) -> Result<Mults, AllocError>
    ensures { IfOk result (λ n. AreShared n (multipliers_of terms) (times_of multiple)) }
{
    let mut mults = Mults::new(alloc);
    match terms {
        Terms::Zero => Ok(mults),
        Terms::One(last) => {
            push_share(&mut mults, last, multiple)?;
            Ok(mults)
        }
        Terms::Two(first, last) => {
            push_share(&mut mults, first, multiple)?;
            push_share(&mut mults, last, multiple)?;
            Ok(mults)
        }
    }
}
