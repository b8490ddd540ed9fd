ghost use Rattle.std.specs.Prelude.{◌+◌, ◌*◌};
ghost use Rattle.bound_forms.specs.inside.Passing.{Limited};

use crate::fault::BoundFault;

/// The greatest number of monomials.
pub(crate) const MOST: usize = 65536;

/// The least number that no coefficient or divisor may be.
const PAST_LIMIT: u128 = 1 << 127;

/// A number that keeps the limit.
pub(crate) fn within_limit(n: u128) -> Result<u128, BoundFault>
    ensures { Limited result n }
{
    if n < PAST_LIMIT {
        Ok(n)
    } else {
        Err(BoundFault::Coefficient)
    }
}

pub(crate) fn limited_sum(a: u128, b: u128) -> Result<u128, BoundFault>
    ensures { Limited result (a + b) }
{
    match a.checked_add(b) {
        Some(sum) => within_limit(sum),
        None => Err(BoundFault::Coefficient),
    }
}

pub(crate) fn limited_product(a: u128, b: u128) -> Result<u128, BoundFault>
    ensures { Limited result (a * b) }
{
    match a.checked_mul(b) {
        Some(product) => within_limit(product),
        None => Err(BoundFault::Coefficient),
    }
}
