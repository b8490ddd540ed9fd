ghost use Rattle.std.specs.Prelude.{◌≡◌, ◌↔◌, IsTrue};
ghost use Rattle.q128.specs.Fraction.{IsSame, IsAtMost};
ghost use Rattle.lin_rows.specs.Combining.{term_added};

use q128::{Q, TooWide};
use std::cmp::Ordering;

/// `x + q * c`. A coefficient 0 makes no number.
#[tactic(auto, unfolding(crate::specs::Combining::term_added))]
pub fn add_term(x: Q, q: Q, c: i128) -> Result<Q, TooWide>
    ensures { result ≡ term_added x q c }
{
    if c == 0 {
        return Ok(x);
    }
    let product = q.mul(Q::whole(c))?;
    x.add(product)
}

/// Whether both are one rational.
pub fn is_same(a: Q, b: Q) -> bool
    ensures { IsTrue result ↔ IsSame a b }
{
    matches!(a.cmp(&b), Ordering::Equal)
}

/// Whether `a` is at most `b`.
pub fn is_at_most(a: Q, b: Q) -> bool
    ensures { IsTrue result ↔ IsAtMost a b }
{
    !matches!(a.cmp(&b), Ordering::Greater)
}
