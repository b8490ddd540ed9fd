ghost use Rattle.std.specs.Prelude.{◌≡◌, pos, ◌+ℤ◌, ◌*ℤ◌, slice_index_or, FitsSigned};
ghost use Rattle.std.specs.Int.{w128};
ghost use Rattle.std.specs.Option.{SomeIff};
ghost use Rattle.lin_rows.specs.Points.{whole_value};
ghost use Rattle.bound_terms.specs.Values.{floored_value, not_below_zero, IsSummed, Answers};

use crate::nat::Nat;
use crate::values::TooBig;
use lin_rows::Lin;

/// The expression's value, not below 0, divided and rounded down.
pub(crate) fn floored(n: &Nat, sizes: &[i128]) -> Result<u128, TooBig>
    ensures { Answers result (IsSummed sizes.now n.now.expression) (floored_value sizes.now n.now) }
{
    let sum = summed(n.expression(), sizes)?;
    Ok(not_below_zero(sum) / n.divisor())
}

fn not_below_zero(z: i128) -> u128
    ensures { result ≡ not_below_zero z }
{
    if z < 0 { 0 } else { z as u128 }
}

/// The expression's value, its terms added in order and then the constant.
fn summed(expression: &Lin, sizes: &[i128]) -> Result<i128, TooBig>
    ensures { Answers result (IsSummed sizes.now expression.now) (whole_value expression.now sizes.now) }
{
    let coefficients = expression.coefficients();
    let mut sum = 0i128;
    for i in 0..coefficients.len() {
        sum = plus_term(sum, coefficients[i], size_at(sizes, i))?;
    }
    plus_constant(sum, expression.constant())
}

fn plus_term(sum: i128, c: i128, size: i128) -> Result<i128, TooBig>
    ensures { Answers result (FitsSigned w128 (sum +ℤ (c *ℤ size))) (sum +ℤ (c *ℤ size)) }
{
    plus_product(sum, c, size).ok_or(TooBig)
}

fn plus_constant(sum: i128, k: i128) -> Result<i128, TooBig>
    ensures { Answers result (FitsSigned w128 (sum +ℤ k)) (sum +ℤ k) }
{
    sum.checked_add(k).ok_or(TooBig)
}

/// The size of a variable, 0 past the list.
fn size_at(sizes: &[i128], i: usize) -> i128
    ensures { result ≡ slice_index_or sizes.now i (pos 0) }
{
    if i < sizes.len() { sizes[i] } else { 0 }
}

/// A sum with a factor times a size added. The product alone may leave `i128`.
fn plus_product(sum: i128, c: i128, size: i128) -> Option<i128>
    ensures { SomeIff result (FitsSigned w128 (sum +ℤ (c *ℤ size))) (sum +ℤ (c *ℤ size)) }
{
    let product = c.unsigned_abs().checked_mul(size.unsigned_abs())?;
    if (c < 0) == (size < 0) {
        sum.checked_add_unsigned(product)
    } else {
        sum.checked_sub_unsigned(product)
    }
}
