ghost use Rattle.std.specs.Prelude.{ℕ, ◌<◌, ◌*◌, ◌^◌};
ghost use Rattle.bound_terms.specs.Bounds.{term_of, terms_of};
ghost use Rattle.bound_terms.specs.Values.{value_of, total_of, product_of, greatest_of, Fits, AllFit, Answers};
ghost use Rattle.bound_terms.specs.inside.Running.{Holds};

use crate::bound::Bound;
use crate::power::{geometric, power};
use crate::quotient::floored;

/// Some part's value isn't below 2^128, or a sum that makes an expression leaves `i128`.
#[derive(Clone, Copy, Debug, PartialEq, Eq)]
pub struct TooBig;

/// The bound's value at sizes, of which one past the list is 0. Takes no memory.
#[cycle(value)]
pub fn value(bound: &Bound, sizes: &[i128]) -> Result<u128, TooBig>
    ensures { Answers result (Fits sizes.now (term_of bound.now)) (value_of sizes.now (term_of bound.now)) }
{
    match bound {
        Bound::Const(n) => Ok(*n),
        Bound::Nat(n) => floored(n, sizes),
        Bound::Sum(parts) => total(parts.as_slice(), sizes),
        Bound::Prod(parts) => product(parts.as_slice(), sizes),
        Bound::Max(parts) => greatest(parts.as_slice(), sizes),
        Bound::Pow(b, n) => power(b.get(), floored(n, sizes)?),
        Bound::Geo(b, n) => geometric(b.get(), floored(n, sizes)?),
    }
}

/// The sum of the values.
#[cycle(value)]
fn total(parts: &[Bound], sizes: &[i128]) -> Result<u128, TooBig>
    ensures { Answers result (AllFit sizes.now (terms_of parts.now) × (total_of sizes.now (terms_of parts.now) < 2 ^ 128)) (total_of sizes.now (terms_of parts.now)) }
{
    let mut sum = 0u128;
    for part in parts {
        let value = value(part, sizes)?;
        sum = sum.checked_add(value).ok_or(TooBig)?;
    }
    Ok(sum)
}

/// The product of the values. What is too big before a factor 0 doesn't count.
#[cycle(value)]
fn product(parts: &[Bound], sizes: &[i128]) -> Result<u128, TooBig>
    ensures { Answers result (AllFit sizes.now (terms_of parts.now) × (product_of sizes.now (terms_of parts.now) < 2 ^ 128)) (product_of sizes.now (terms_of parts.now)) }
{
    let mut product = Some(1u128);
    for part in parts {
        let value = value(part, sizes)?;
        product = times(product, value);
    }
    product.ok_or(TooBig)
}

/// The greatest of the values.
#[cycle(value)]
fn greatest(parts: &[Bound], sizes: &[i128]) -> Result<u128, TooBig>
    ensures { Answers result (AllFit sizes.now (terms_of parts.now)) (greatest_of sizes.now (terms_of parts.now)) }
{
    let mut greatest = 0u128;
    for part in parts {
        greatest = greatest.max(value(part, sizes)?);
    }
    Ok(greatest)
}

/// What two factors come to, where none is a product that is too big. A factor 0 makes it 0.
fn times(product: Option<u128>, factor: u128) -> Option<u128>
    ensures { (m : ℕ) → Holds product m → Holds result (m * factor) }
{
    match product {
        Some(product) => product.checked_mul(factor),
        None if factor == 0 => Some(0),
        None => None,
    }
}
