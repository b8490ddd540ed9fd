ghost use Rattle.std.specs.Prelude.{◌≡◌, ◌≤ℤ◌, ◌↔◌, pos, length, IsTrue, IfOk, IfErr, Ok, Err};
ghost use Rattle.q128.specs.Fraction.{Fraction};
ghost use Rattle.lin_rows.specs.Points.{HoldsAt};
ghost use Rattle.lin_rows.specs.Combining.{terms_added, value_made};

use crate::row::Row;
use crate::sequence::Sequence;
use crate::term::add_term;
use q128::{Q, TooWide};
use std::alloc::AllocError;

/// A point where `t` is positive, and a ray where `t` is 0. A variable past the end of `v` is 0.
#[derive(Debug, Drop)]
pub struct Point {
    pub t: Q,
    pub v: Sequence<Q>,
}

impl Clone for Point {
    ghost is_clone = { λ p c. c ≡ p };

    fn clone(&self) -> Result<Self, AllocError> {
        Ok(Point {
            t: self.t,
            v: self.v.clone()?,
        })
    }
}

/// `x` with each coefficient times its coordinate added.
fn add_terms(x: Q, coefficients: &[i128], v: &[Q]) -> Result<Q, TooWide>
    ensures { result ≡ terms_added x coefficients.now v.now }
{
    let mut sum = x;
    let shared = coefficients.len().min(v.len());
    for i in 0..shared {
        sum = add_term(sum, v[i], coefficients[i])?;
    }
    Ok(sum)
}

#[tactic(auto, unfolding(crate::specs::Combining::value_made))]
fn value(row: &Row, p: &Point) -> Result<Q, TooWide>
    ensures { result ≡ value_made row.now.lin p.now.t p.now.v }
{
    let sum = add_terms(Q::whole(0), row.lin.coefficients(), p.v.as_slice())?;
    add_term(sum, p.t, row.lin.constant())
}

/// Whether the row holds at the point or ray, where its constant is taken times `t`.
pub fn holds(row: &Row, p: &Point) -> Result<bool, TooWide>
    ensures exact { IfOk result (λ b. IsTrue b ↔ HoldsAt row.now.lin p.now.t p.now.v) }
    // The fault comes exactly where a number of the rule leaves `i128`.
    ensures wide { (e : TooWide) → (result ≡ Err e) ↔ (value_made row.now.lin p.now.t p.now.v ≡ Err e) }
{
    let value = value(row, p)?;
    Ok(value.numerator() >= 0)
}
