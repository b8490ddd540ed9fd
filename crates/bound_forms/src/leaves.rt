ghost use Rattle.std.specs.Prelude.{◌≡◌, [], IfOk};
ghost use Rattle.bound_terms.specs.Terms.{Power, Geometric};
ghost use Rattle.bound_terms.specs.Bounds.{term_of};
ghost use Rattle.bound_terms.specs.Values.{value_of, IsSummed};
ghost use Rattle.bound_forms.specs.Monomials.{constant, one_atom};
ghost use Rattle.bound_forms.specs.Coded.{coded_form};
ghost use Rattle.bound_forms.specs.Lowest.{trimmed, fixed_value, floor_form, power_form, geometric_form};
ghost use Rattle.bound_forms.specs.Answered.{Makes, MakesWhole};
ghost use Rattle.bound_forms.specs.inside.Numbers.{FitsOrPasses, fixed_by};

use crate::fault::BoundFault;
use crate::limits::within_limit;
use crate::monomial::Monomial;
use crate::reducing::{lowest, trimmed_len};
use bound_terms::{Base, Bound, Nat, value};
use std::alloc::{AllocError, Global};

/// The value of an expression that doesn't depend on a size. At no sizes each expression's sums fit.
pub(crate) fn fixed_value(n: &Nat) -> Option<u128>
    ensures value { result ≡ fixed_by (trimmed n.now.expression.coefficients) (fixed_value n.now) }
    ensures summed { IsSummed [] n.now.expression }
{
    let l = n.expression();
    let constant = l.constant();
    if trimmed_len(l) > 0 {
        None
    } else if constant < 0 {
        Some(0)
    } else {
        Some(constant.unsigned_abs() / n.divisor())
    }
}

/// The form of a number.
pub(crate) fn constant(alloc: Global, n: u128) -> Result<Vec<Monomial>, BoundFault>
    ensures { Makes result (constant n) }
{
    let coefficient = within_limit(n)?;
    let mut form = Vec::new(alloc);
    if coefficient > 0 {
        form.push(Monomial::number(alloc, coefficient))?;
    }
    Ok(form)
}

/// The form of an atom.
pub(crate) fn one_atom(alloc: Global, atom: Bound) -> Result<Vec<Monomial>, AllocError>
    ensures { IfOk result (λ f. coded_form f.items ≡ one_atom (term_of atom)) }
{
    let mut form = Vec::new(alloc);
    form.push(Monomial::of_atom(alloc, atom)?)?;
    Ok(form)
}

/// The form of a bound that doesn't depend on a size.
fn fixed(alloc: Global, bound: &Bound) -> Result<Vec<Monomial>, BoundFault>
    requires { FitsOrPasses (term_of bound.now) }
    ensures { Makes result (constant (value_of [] (term_of bound.now))) }
{
    match value(bound, &[]) {
        Ok(n) => constant(alloc, n),
        Err(_) => Err(BoundFault::Coefficient),
    }
}

/// The form of an expression that is cut off below 0 and divided.
pub(crate) fn floor_form(alloc: Global, n: &Nat) -> Result<Vec<Monomial>, BoundFault>
    ensures { MakesWhole result (floor_form n.now) }
{
    match fixed_value(n) {
        Some(number) => constant(alloc, number),
        None => Ok(one_atom(alloc, Bound::Nat(lowest(alloc, n)?))?),
    }
}

/// The form of a power, which the bound is.
pub(crate) fn power_form(
    alloc: Global,
    bound: &Bound,
    b: &Base,
    n: &Nat,
) -> Result<Vec<Monomial>, BoundFault>
    requires { term_of bound.now ≡ Power b.now n.now }
    ensures { MakesWhole result (power_form b.now n.now) }
{
    if b.get() == 1 {
        constant(alloc, 1)
    } else {
        match fixed_value(n) {
            Some(_number) => fixed(alloc, bound),
            None => Ok(one_atom(alloc, Bound::Pow(Base::new(b.get()), lowest(alloc, n)?))?),
        }
    }
}

/// The form of a sum of powers, which the bound is.
pub(crate) fn geometric_form(
    alloc: Global,
    bound: &Bound,
    b: &Base,
    n: &Nat,
) -> Result<Vec<Monomial>, BoundFault>
    requires { term_of bound.now ≡ Geometric b.now n.now }
    ensures { MakesWhole result (geometric_form b.now n.now) }
{
    if b.get() == 1 {
        floor_form(alloc, n)
    } else {
        match fixed_value(n) {
            Some(_number) => fixed(alloc, bound),
            None => Ok(one_atom(alloc, Bound::Geo(Base::new(b.get()), lowest(alloc, n)?))?),
        }
    }
}
