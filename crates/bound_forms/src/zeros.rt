ghost use Rattle.std.specs.Prelude.{◌≡◌, ◌≤◌, map};
ghost use Rattle.std.specs.List.{list_all, list_any};
ghost use Rattle.bound_terms.specs.Terms.{Floored};
ghost use Rattle.bound_terms.specs.Bounds.{term_of};
ghost use Rattle.bound_forms.specs.Lowest.{floor_form, power_form, geometric_form};
ghost use Rattle.bound_forms.specs.Forms.{form};
ghost use Rattle.bound_forms.specs.Formed.{is_empty};

use crate::leaves::fixed_value;
use bound_terms::{Base, Bound, Nat};

/// Whether an expression is 0 at all sizes.
fn is_zero_floor(n: &Nat) -> bool
    ensures { result ≡ is_empty (floor_form n.now) }
{
    matches!(fixed_value(n), Some(0))
}

/// A power is never 0, since no base is.
fn is_zero_power(b: &Base) -> bool
    ensures value { (n : Floored) → result ≡ is_empty (power_form b.now n) }
    ensures positive { 1 ≤ b.now }
{
    b.get() == 0
}

/// Whether a sum of powers is 0 at all sizes: there is none where the exponent is 0.
fn is_zero_geometric(b: &Base, n: &Nat) -> bool
    ensures { result ≡ is_empty (geometric_form b.now n.now) }
{
    is_zero_power(b) || is_zero_floor(n)
}

/// Whether the bound's form has no monomial.
#[cycle(zero)]
pub(crate) fn is_zero(bound: &Bound) -> bool
    ensures { result ≡ is_empty (form (term_of bound.now)) }
{
    match bound {
        Bound::Const(n) => *n == 0,
        Bound::Nat(n) => is_zero_floor(n),
        Bound::Sum(parts) => all_zero(parts.as_slice()),
        Bound::Prod(parts) => some_zero(parts.as_slice()),
        Bound::Max(parts) => all_zero(parts.as_slice()),
        Bound::Pow(b, _n) => is_zero_power(b),
        Bound::Geo(b, n) => is_zero_geometric(b, n),
    }
}

#[cycle(zero)]
fn all_zero(parts: &[Bound]) -> bool
    ensures { result ≡ list_all (λ t. is_empty (form t)) (map term_of parts.now) }
{
    for part in parts {
        if !is_zero(part) {
            return false;
        }
    }
    true
}

#[cycle(zero)]
pub(crate) fn some_zero(parts: &[Bound]) -> bool
    ensures { result ≡ list_any (λ t. is_empty (form t)) (map term_of parts.now) }
{
    for part in parts {
        if is_zero(part) {
            return true;
        }
    }
    false
}
