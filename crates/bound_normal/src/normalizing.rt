ghost use Rattle.std.specs.Prelude.{◌≡◌, ℤ, List, All, FitsSigned, IfOk};
ghost use Rattle.std.specs.Int.{w128};
ghost use Rattle.bound_terms.specs.Bounds.{term_of, terms_of};
ghost use Rattle.bound_terms.specs.Values.{value_of};
ghost use Rattle.bound_forms.specs.Normal.{IsHeld, IsNormal};
ghost use Rattle.bound_forms.specs.Needed.{IsNormalized};
ghost use Rattle.bound_normal.specs.Held.{IsBase, IsHeldTerm, AreHeldTerms};

use bound_forms::BoundFault;
use bound_terms::{Base, Bound, Nat};
use std::alloc::Global;

fn see_number(number: i128)
    ensures { FitsSigned w128 number }
{
    let _ = number;
}

fn see_numbers(numbers: &[i128])
    ensures { All (FitsSigned w128) numbers.now }
{
    for number in numbers {
        see_number(*number);
    }
}

/// Looks at an expression's numbers.
fn see_expression(n: &Nat)
    ensures { IsHeld n.now }
{
    let l = n.expression();
    see_numbers(l.coefficients());
    let _constant = l.constant();
    let _length = l.len();
    let _divisor = n.divisor();
}

fn see_base(b: &Base)
    ensures { IsBase b.now }
{
    let _number = b.get();
}

/// Looks at each number of a bound: what they hold is known then.
#[cycle(seeing)]
fn see(bound: &Bound)
    ensures { IsHeldTerm (term_of bound.now) }
{
    match bound {
        Bound::Const(_) => {}
        Bound::Nat(n) => see_expression(n),
        Bound::Sum(parts) => see_all(parts.as_slice()),
        Bound::Prod(parts) => see_all(parts.as_slice()),
        Bound::Max(parts) => see_all(parts.as_slice()),
        Bound::Pow(b, n) => {
            see_base(b);
            see_expression(n);
        }
        Bound::Geo(b, n) => {
            see_base(b);
            see_expression(n);
        }
    }
}

#[cycle(seeing)]
fn see_all(parts: &[Bound])
    ensures { AreHeldTerms (terms_of parts.now) }
{
    for part in parts {
        see(part);
    }
}

/// The bound's normal form, which has the bound's value at all sizes. `Monomials` and `Coefficient` come where the form of the
/// bound, or of a part of it beside which no factor is 0, passes the limit.
#[tactic(auto, using(crate::proofs::Normalized::is_normal, crate::proofs::Normalized::keeps_value))]
pub fn normal(alloc: Global, bound: Bound) -> Result<Bound, BoundFault>
    ensures form { IsNormalized result (term_of bound) }
    ensures normal { IfOk result (λ b. IsNormal (term_of b)) }
    ensures value { IfOk result (λ b. (sizes : List ℤ) → value_of sizes (term_of b) ≡ value_of sizes (term_of bound)) }
{
    see(&bound);
    bound_forms::normal(alloc, bound)
}
