ghost use Rattle.std.specs.Prelude.{◌≡◌, ◌≤◌, ◌<◌, ◌+◌, ◌*◌, ◌^◌};
ghost use Rattle.bound_terms.specs.Values.{geo, Answers};

use crate::values::TooBig;

/// `b` to the power of `n`.
pub(crate) fn power(b: u128, n: u128) -> Result<u128, TooBig>
    requires { 1 ≤ b }
    ensures { Answers result (b ^ n < 2 ^ 128) (b ^ n) }
{
    if b == 1 {
        return Ok(1);
    }
    if n >= 128 {
        return Err(TooBig);
    }
    b.checked_pow(n as u32).ok_or(TooBig)
}

/// `1 + b + .. + b^(n-1)`.
pub(crate) fn geometric(b: u128, n: u128) -> Result<u128, TooBig>
    requires { 1 ≤ b }
    ensures { Answers result (geo b n < 2 ^ 128) (geo b n) }
{
    if b == 1 {
        return Ok(n);
    }
    if n > 128 {
        return Err(TooBig);
    }
    let mut sum = 0u128;
    let mut count = 0u128;
    while count < n {
        sum = next_sum(sum, b)?;
        count += 1;
    }
    Ok(sum)
}

/// A sum of powers with all powers one higher, and 1.
fn next_sum(sum: u128, b: u128) -> Result<u128, TooBig>
    ensures { Answers result (b * sum + 1 < 2 ^ 128) (b * sum + 1) }
{
    let higher = b.checked_mul(sum).ok_or(TooBig)?;
    higher.checked_add(1).ok_or(TooBig)
}
